//! The tree at the end of a script.

ghost use Rattle.std.specs.Prelude.{◌≡◌, ◌⊎◌, ℕ, ◌+◌, ◌^◌, ◌≤◌, [], ◌∷◌, length, OnErr, OnOk, IfOk};
ghost use Rattle.rd_scene.specs.Figures.{max_commands};
ghost use Rattle.rd_run.specs.Checks as checks;
ghost use Rattle.rd_run.specs.Checks.{changes_of, IsLastState};
ghost use Rattle.rd_run.specs.Endings.{counter};
ghost use Rattle.rd_run.specs.Internal.Answered.{Performs, MayPerform};
ghost use Rattle.rd_run.specs.Internal.Session.{Shows, IsFew};
ghost use Rattle.rd_run.specs.Machine.{State};

use crate::session::Session;
use rd_geom::{NoMemory, Steps};
use rd_scene::{Command, Script, plant};
use rd_tree::Tree;
use std::alloc::Global;
use std::sync::ledger::Ledger;

/// Does the command change the tree?
fn is_change(command: &Command) -> bool
    ensures { result ≡ checks.is_change command.now }
{
    matches!(command, Command::Change(_) | Command::Undo)
}

/// Does a command that changes the tree, and no other.
fn change<A: Ledger, B: Ledger>(
    alloc: Global,
    session: &mut Session<A, B>,
    command: &Command,
    made: &mut Steps<A>,
    looks: &mut Steps<B>,
) -> Result<(), NoMemory>
    requires { IsFew session.old (2 ^ 29) }
    ensures all { OnOk result ((s : State) → Shows session.old s
        → Performs (counter made.old made.new) (counter looks.old looks.new) s (changes_of (command.now ∷ [])) session.new) }
    ensures part { OnErr result ((s : State) → Shows session.old s
        → MayPerform (counter made.old made.new) (counter looks.old looks.new) s (changes_of (command.now ∷ []))) }
    ensures count { (n : ℕ) → IsFew session.old n → IsFew session.new (n + 1) }
{
    if is_change(command) {
        session.perform(alloc, command, made, looks)
    } else {
        Ok(())
    }
}

/// Does those of the commands that change the tree, in turn.
fn change_all<A: Ledger, B: Ledger>(
    alloc: Global,
    session: &mut Session<A, B>,
    commands: &[Command],
    made: &mut Steps<A>,
    looks: &mut Steps<B>,
) -> Result<(), NoMemory>
    requires none { IsFew session.old 0 }
    requires few { length commands.now ≤ max_commands }
    ensures all { OnOk result ((s : State) → Shows session.old s
        → Performs (counter made.old made.new) (counter looks.old looks.new) s (changes_of commands.now) session.new) }
    ensures part { OnErr result ((s : State) → Shows session.old s
        → MayPerform (counter made.old made.new) (counter looks.old looks.new) s (changes_of commands.now)) }
{
    for command in commands {
        change(alloc, session, command, made, looks)?;
    }
    Ok(())
}

/// The tree at the end of a script of which the edits are done, and in version 2 the undos, and nothing else. `made` is not raised;
/// `looks` counts those that tell what undoes an edit, also where there was no memory for all.
pub fn last_tree<A: Ledger, B: Ledger>(
    alloc: Global,
    script: &Script,
    made: &mut Steps<A>,
    looks: &mut Steps<B>,
) -> Result<Tree<B>, NoMemory>
    ensures last { IfOk result (λ tree. (last : State) × IsLastState script.now last × (tree ≡ last.tree)
        × (made.new ≡ made.old) × (looks.new ≤ looks.old + last.counts.looks)) }
    ensures part { OnErr result (((made.new ≡ made.old) × (looks.new ≡ looks.old))
        ⊎ ((last : State) × IsLastState script.now last
        × (made.new ≤ made.old) × (looks.new ≤ looks.old + last.counts.looks))) }
{
    let commands = &script.commands;
    let tree: Tree<B> = plant(alloc, script)?;
    let mut session: Session<A, B> = Session::new(alloc, script.version, tree)?;
    change_all(alloc, &mut session, commands, made, looks)?;
    Ok(session.into_tree())
}
