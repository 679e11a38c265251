//! An engine, and what it did since the first command.

ghost use Rattle.std.specs.Prelude.{◌≡◌, ◌+◌, ◌^◌, ◌∷◌, ◌++◌, ◌≤◌, ℕ, true, false, IfOk, OnOk, OnErr, None as Nothing, []};
ghost use Rattle.std.specs.Prelude.{string_bytes, option_map, option_copied};
ghost use Rattle.circular_buffer.specs.Buffer.{buffer, keep_last};
ghost use Rattle.rd_engine.specs.Painted.{IsAllTouched, IsBegun};
ghost use Rattle.rd_engine.specs.State.{IsEngine};
ghost use Rattle.rd_list.specs.Lists.{hit};
ghost use Rattle.rd_stack.specs.Fresh.{fresh_list};
ghost use Rattle.rd_edits.specs.Refusals.{refusal_of};
ghost use Rattle.rd_report.specs.Answers.{ok_line, paint_line, undone_line};
ghost use Rattle.rd_report.specs.Words.{id_text};
ghost use Rattle.rd_scene.specs.declared.script.Command.TheVariants.{Change, Undo as Undoing};
ghost use Rattle.rd_run.specs.Endings.{counter};
ghost use Rattle.rd_run.specs.Figures.{max_undos};
ghost use Rattle.rd_run.specs.Machine.{State, Step as MachineStep, Asks, Paints, PaintsIf, TakesBack, TakesOne, start};
ghost use Rattle.rd_list.specs.Unordered.{unordered};
ghost use Rattle.rd_wire.specs.Wires.{spelled};
ghost use Rattle.rd_run.specs.Pictures.{picture};
ghost use Rattle.rd_run.specs.Internal.Lasts.{IsWellFormed};
ghost use Rattle.rd_run.specs.Internal.Session.{Shows, IsFew, Advances, Does, Tells, MayGoOn};
ghost use Rattle.rd_run.specs.Internal.Session.{PaintsOnce, PaintsNot, Watched};
ghost use Rattle.rd_run.specs.Internal.Session.{line_if, edit_line, reply};

use rd_edits::{Edit, EditFault, verdict};
use rd_engine::{Engine, PaintNote};
use rd_geom::{NoMemory, Steps};
use rd_report::{Answer, digest, p6, push_dump, push_line};
use rd_scene::Command;
use rd_tree::{Id, Tree};
use rd_undo::{Step, Undo};
use rd_wire::encode;
use std::alloc::{AllocError, Global};
use std::marker::Model;
use std::sync::ledger::Ledger;

/// How many edits can be taken back one after another.
const MAX_UNDOS: u32 = 100;

/// The limit, so that clauses can say what it is.
fn figure()
    ensures { MAX_UNDOS ≡ max_undos }
{}

/// An engine, how many edits were done and refused since the first command, and the sums of the items that its paints
/// made and of the pixels of their areas. In version 2 it keeps what undoes the latest edits. After want of memory it is of
/// no further use.
#[derive(Drop)]
pub(crate) struct Session<A: Ledger, B: Ledger> {
    pub(crate) engine: Engine<A, B>,
    pub(crate) accepted: u64,
    pub(crate) refused: u64,
    pub(crate) built: u64,
    pub(crate) area: u64,
    keeps: bool,
    undo: Undo,
}

impl<A: Ledger, B: Ledger> Model for Session<A, B> {
    ghost use Rattle.rd_run.specs.Internal.Session.{SessionState};
    ghost use Rattle.rd_run.specs.Internal.SessionCode.{session_code};
    ghost use Rattle.rd_engine.specs.Internal.StateCode.{engine_code, region_code};
    ghost use Rattle.rd_tree.specs.Internal.Coding.{document_code};
    ghost use Rattle.rd_list.specs.Internal.KeptCode.{kept_code, made_code};
    ghost use Rattle.rd_list.specs.Wrappers.{wrapper_code};
    ghost use Rattle.rd_geom.specs.contracts.rect.Size as canvas_size;
    ghost use Rattle.rd_geom.specs.contracts.span.Span as span;
    ghost use Rattle.rd_geom.specs.contracts.color.Px as px;
    ghost use Rattle.rd_keys.specs.contracts.key.Key as key;
    ghost use Rattle.rd_keys.specs.contracts.entry.BoxMark as mark;
    ghost use Rattle.rd_tree.specs.contracts.node.Item as item;
    ghost use Rattle.rd_graph.specs.contracts.graph.OrderGraph as order;
    ghost use Rattle.rd_item.specs.contracts.leaf.Leaf as leaf;
    ghost use Rattle.rd_undo.specs.contracts.undo.Undo as undo_row;

    ghost Value = { SessionState };

    ghost coded = { session_code (engine_code
        (document_code canvas_size.the_row.coded (key.the_row mark.the_row).coded item.the_row.coded)
        (kept_code order.the_row.coded (wrapper_code (key.the_row mark.the_row).coded) (made_code leaf.the_row.coded))
        px.the_row.coded (region_code canvas_size.the_row.coded span.the_row.coded)) undo_row.the_row.coded };

    ghost view = { λ x. record {
      engine = x.engine;
      accepted = x.accepted;
      refused = x.refused;
      built = x.built;
      area = x.area;
      keeps = x.keeps;
      undo = x.undo;
    } };
}

/// The answer of a paint.
fn painted(note: &PaintNote) -> Answer<'static>
    ensures { result ≡ Answer.Painted note.now.number note.now.built note.now.kept note.now.area }
{
    Answer::Painted {
        number: note.number,
        built: note.built,
        kept: note.kept,
        area: note.area,
    }
}

/// Puts the line of a paint at the end of a text, where there was one.
fn push_paint(alloc: Global, text: &mut String, note: &Option<PaintNote>) -> Result<(), NoMemory>
    ensures { OnOk result (string_bytes text.new ≡ string_bytes text.old ++ line_if note.now) }
{
    match note {
        Some(note) => push_line(alloc, text, &painted(note)),
        None => Ok(()),
    }
}

/// Puts the line of an edit at the end of a text.
fn push_edit(alloc: Global, text: &mut String, refused: &Option<u8>) -> Result<(), NoMemory>
    ensures { OnOk result (string_bytes text.new ≡ string_bytes text.old ++ edit_line refused.now) }
{
    match refused {
        Some(number) => push_line(alloc, text, &Answer::Refused(*number)),
        None => push_line(alloc, text, &Answer::Done),
    }
}

/// Keeps one more step. The oldest goes where there are as many as are kept.
fn note(undo: &mut Undo, step: Step)
    ensures { undo.new ≡ buffer (keep_last undo.old.capacity (undo.old.items ++ step ∷ [])) undo.old.capacity }
{
    let _oldest = undo.push(step);
}

impl<A: Ledger, B: Ledger> Session<A, B> {
    /// Before the first command of a script of this version.
    pub(crate) fn new(alloc: Global, version: u8, tree: Tree<B>) -> Result<Session<A, B>, NoMemory>
        requires touched { IsAllTouched tree }
        requires well_formed { IsWellFormed tree }
        ensures shows { IfOk result (λ x. Shows x (start version tree)) }
        ensures few { IfOk result (λ x. IsFew x 0) }
        ensures begun { IfOk result (λ x. IsBegun tree x.engine) }
    {
        let engine = Engine::new(alloc, tree)?;
        let undo = Undo::new(alloc, MAX_UNDOS)?;
        Ok(Session {
            engine,
            accepted: 0,
            refused: 0,
            built: 0,
            area: 0,
            keeps: version == 2,
            undo,
        })
    }

    /// The engine, lent.
    pub(crate) fn engine(&self) -> &Engine<A, B>
        ensures { result.now ≡ self.now.engine }
    {
        &self.engine
    }

    /// The tree alone.
    pub(crate) fn into_tree(self) -> Tree<B>
        ensures { result ≡ self.engine.tree }
    {
        let Session {
            engine,
            accepted: _,
            refused: _,
            built: _,
            area: _,
            keeps: _,
            undo: _,
        } = self;
        engine.into_tree()
    }

    /// How many paints there were.
    pub(crate) fn paints(&self) -> u64
        ensures count { result ≡ self.now.engine.paints }
        ensures state { IsEngine self.now.engine }
    {
        let _list = self.engine.view();
        self.engine.paints()
    }

    /// Paints.
    fn paint(&mut self, made: &mut Steps<A>, looks: &mut Steps<B>) -> Result<PaintNote, NoMemory>
        requires few { IsFew self.old (2 ^ 29) }
        ensures ok { IfOk result (λ note. (s : State) → Shows self.old s
            → Advances Paints (counter made.old made.new) (counter looks.old looks.new) s
            (paint_line note.number note.built note.kept note.area) self.new) }
        ensures done { OnOk result (self.new.engine.pending ≡ false) }
        ensures err { OnErr result ((s : State) → Shows self.old s
            → MayGoOn Paints (counter made.old made.new) (counter looks.old looks.new) s) }
        ensures count { (n : ℕ) → IsFew self.old n → IsFew self.new (n + 1) }
        ensures watched { OnOk result (PaintsOnce self.old.engine self.new.engine) }
    {
        let _list = self.engine.view();
        let note = self.engine.paint(made, looks)?;
        let _size = self.engine.tree().canvas();
        let _merged = self.engine.view();
        self.built += note.built;
        self.area += note.area;
        Ok(note)
    }

    /// Paints, where a paint is pending.
    fn paint_if_pending(
        &mut self,
        made: &mut Steps<A>,
        looks: &mut Steps<B>,
    ) -> Result<Option<PaintNote>, NoMemory>
        requires few { IsFew self.old (2 ^ 29) }
        ensures ok { IfOk result (λ note. (s : State) → Shows self.old s
            → Advances (PaintsIf self.old.engine.pending) (counter made.old made.new) (counter looks.old looks.new) s
            (line_if note) self.new) }
        ensures done { OnOk result (self.new.engine.pending ≡ false) }
        ensures err { OnErr result ((s : State) → Shows self.old s
            → MayGoOn (PaintsIf self.old.engine.pending) (counter made.old made.new) (counter looks.old looks.new) s) }
        ensures count { (n : ℕ) → IsFew self.old n → IsFew self.new (n + 1) }
        ensures watched { OnOk result (Watched self.old.engine self.new.engine) }
    {
        if self.engine.pending() {
            let note = self.paint(made, looks)?;
            Ok(Some(note))
        } else {
            Ok(None)
        }
    }

    /// Does an edit, or gives the number of the first test that refuses it. What undoes it is not kept.
    fn edit_only(&mut self, edit: &Edit) -> Result<Option<u8>, NoMemory>
        requires few { IsFew self.old (2 ^ 29) }
        requires keeps { self.old.keeps ≡ false }
        ensures ok { IfOk result (λ refused. (s : State) (m l : ℕ) → Shows self.old s
            → Advances (MachineStep (Change edit.now)) (counter m m) (counter l l) s (edit_line refused) self.new) }
        ensures count { (n : ℕ) → IsFew self.old n → IsFew self.new (n + 1) }
        ensures watched { OnOk result (PaintsNot self.old.engine self.new.engine) }
    {
        match self.engine.edit(edit) {
            Ok(()) => {
                self.accepted += 1;
                Ok(None)
            }
            Err(fault) => match fault {
                EditFault::NoMemory => Err(AllocError),
                _ => {
                    self.refused += 1;
                    Ok(Some(fault.number()))
                }
            },
        }
    }

    /// Does an edit that no test refuses, and keeps what undoes it.
    fn do_noted(&mut self, alloc: Global, edit: &Edit, looks: &mut Steps<B>) -> Result<(), NoMemory>
        requires few { IsFew self.old (2 ^ 29) }
        requires keeps { self.old.keeps ≡ true }
        requires accepted { refusal_of self.old.engine.tree edit.now ≡ Nothing }
        ensures ok { OnOk result ((s : State) (m : ℕ) → Shows self.old s
            → Advances (MachineStep (Change edit.now)) (counter m m) (counter looks.old looks.new) s ok_line self.new) }
        ensures err { OnErr result ((s : State) (m : ℕ) → Shows self.old s
            → MayGoOn (MachineStep (Change edit.now)) (counter m m) (counter looks.old looks.new) s) }
        ensures count { (n : ℕ) → IsFew self.old n → IsFew self.new (n + 1) }
        ensures watched { OnOk result (PaintsNot self.old.engine self.new.engine) }
    {
        let step = Step::prepare(alloc, self.engine.tree(), edit, looks)?;
        match self.engine.edit(edit) {
            Ok(()) => {
                self.accepted += 1;
                note(&mut self.undo, step);
                Ok(())
            }
            Err(_) => Err(AllocError),
        }
    }

    /// Does an edit, or gives the number of the first test that refuses it. Keeps what undoes it.
    fn edit_noted(
        &mut self,
        alloc: Global,
        edit: &Edit,
        looks: &mut Steps<B>,
    ) -> Result<Option<u8>, NoMemory>
        requires few { IsFew self.old (2 ^ 29) }
        requires keeps { self.old.keeps ≡ true }
        ensures ok { IfOk result (λ refused. (s : State) (m : ℕ) → Shows self.old s
            → Advances (MachineStep (Change edit.now)) (counter m m) (counter looks.old looks.new) s (edit_line refused) self.new) }
        ensures err { OnErr result ((s : State) (m : ℕ) → Shows self.old s
            → MayGoOn (MachineStep (Change edit.now)) (counter m m) (counter looks.old looks.new) s) }
        ensures count { (n : ℕ) → IsFew self.old n → IsFew self.new (n + 1) }
        ensures watched { OnOk result (PaintsNot self.old.engine self.new.engine) }
    {
        match verdict(self.engine.tree(), edit) {
            Some(fault) => {
                self.refused += 1;
                Ok(Some(fault.number()))
            }
            None => {
                self.do_noted(alloc, edit, looks)?;
                Ok(None)
            }
        }
    }

    /// Does an edit, or gives the number of the first test that refuses it.
    fn edit(
        &mut self,
        alloc: Global,
        edit: &Edit,
        looks: &mut Steps<B>,
    ) -> Result<Option<u8>, NoMemory>
        requires few { IsFew self.old (2 ^ 29) }
        ensures ok { IfOk result (λ refused. (s : State) (m : ℕ) → Shows self.old s
            → Advances (MachineStep (Change edit.now)) (counter m m) (counter looks.old looks.new) s (edit_line refused) self.new) }
        ensures err { OnErr result ((s : State) (m : ℕ) → Shows self.old s
            → MayGoOn (MachineStep (Change edit.now)) (counter m m) (counter looks.old looks.new) s) }
        ensures count { (n : ℕ) → IsFew self.old n → IsFew self.new (n + 1) }
        ensures watched { OnOk result (PaintsNot self.old.engine self.new.engine) }
    {
        if self.keeps {
            self.edit_noted(alloc, edit, looks)
        } else {
            self.edit_only(edit)
        }
    }

    /// Does one of the edits that undo another. It is counted by 1, or by 0 where a test refuses it.
    fn take_one(&mut self, edit: &Edit) -> Result<u64, NoMemory>
        ensures ok { IfOk result (λ done. (s : State) → Shows self.old s
            → (next : State) × TakesOne (refusal_of s.tree edit.now) edit.now done s next × Shows self.new next) }
        ensures little { IfOk result (λ done. done ≤ 1) }
        ensures count { (n : ℕ) → IsFew self.old n → IsFew self.new n }
        ensures watched { OnOk result (PaintsNot self.old.engine self.new.engine) }
    {
        match self.engine.edit(edit) {
            Ok(()) => Ok(1),
            Err(fault) => match fault {
                EditFault::NoMemory => Err(AllocError),
                _ => Ok(0),
            },
        }
    }

    /// Does the edits that undo another. How many were done.
    fn take_back(&mut self, edits: &[Edit]) -> Result<u64, NoMemory>
        ensures ok { IfOk result (λ done. (s : State) → Shows self.old s
            → (next : State) × TakesBack edits.now done s next × Shows self.new next) }
        ensures count { (n : ℕ) → IsFew self.old n → IsFew self.new n }
        ensures watched { OnOk result (PaintsNot self.old.engine self.new.engine) }
    {
        let mut done = 0;
        for edit in edits {
            done += self.take_one(edit)?;
        }
        Ok(done)
    }

    /// Takes back the newest of what is kept. How many edits that took; None where nothing is kept.
    fn undo_kept(&mut self) -> Result<Option<u64>, NoMemory>
        requires keeps { self.old.keeps ≡ true }
        ensures ok { IfOk result (λ done. (s : State) (m l : ℕ) → Shows self.old s
            → Advances (MachineStep Undoing) (counter m m) (counter l l) s (undone_line done) self.new) }
        ensures count { (n : ℕ) → IsFew self.old n → IsFew self.new (n + 1) }
        ensures watched { OnOk result (PaintsNot self.old.engine self.new.engine) }
    {
        match self.undo.pop() {
            Some(step) => {
                let done = self.take_back(step.edits())?;
                Ok(Some(done))
            }
            None => Ok(None),
        }
    }

    /// Takes back the latest edit that is not taken back yet. How many edits that took; None where there is none.
    fn undo(&mut self) -> Result<Option<u64>, NoMemory>
        ensures ok { IfOk result (λ done. (s : State) (m l : ℕ) → Shows self.old s
            → Advances (MachineStep Undoing) (counter m m) (counter l l) s (undone_line done) self.new) }
        ensures count { (n : ℕ) → IsFew self.old n → IsFew self.new (n + 1) }
        ensures watched { OnOk result (PaintsNot self.old.engine self.new.engine) }
    {
        if self.keeps {
            self.undo_kept()
        } else {
            Ok(None)
        }
    }

    /// The id of the box that is hit in column `x` and row `y`. No paint is pending.
    fn hit(&self, x: i32, y: i32) -> Option<&Id>
        requires { self.now.engine.pending ≡ false }
        ensures { option_copied result ≡ option_map (λ k. id_text k self.now.engine.tree.boxes)
            (hit (fresh_list self.now.engine.tree) x y) }
    {
        let tree = self.engine.tree();
        let _root = tree.root();
        match self.engine.hit(x, y) {
            Some(key) => tree.id(key),
            None => None,
        }
    }

    /// Puts the answer to a question at the end of a text. No paint is pending.
    fn push_reply(
        &self,
        alloc: Global,
        question: &Command,
        text: &mut String,
    ) -> Result<(), NoMemory>
        requires { self.now.engine.pending ≡ false }
        ensures { OnOk result ((s : State) → Shows self.now s
            → string_bytes text.new ≡ string_bytes text.old ++ reply question.now s) }
    {
        match question {
            Command::Change(_) | Command::Paint | Command::Undo => Ok(()),
            Command::Hit { x, y } => push_line(alloc, text, &Answer::Hit(self.hit(*x, *y))),
            Command::Pixel { x, y } => {
                let color = self.engine.pixel(*x, *y);
                push_line(alloc, text, &Answer::Pixel(color))
            }
            Command::Dump => push_dump(text, self.engine.view(), self.engine.tree()),
            Command::Shot => {
                let picture = self.picture(alloc)?;
                push_line(alloc, text, &Answer::Shot(digest(&picture)))
            }
        }
    }

    /// Puts the answer to a question at the end of a text, with the line of the paint that it causes before it.
    fn ask(
        &mut self,
        alloc: Global,
        question: &Command,
        text: &mut String,
        made: &mut Steps<A>,
        looks: &mut Steps<B>,
    ) -> Result<(), NoMemory>
        requires few { IsFew self.old (2 ^ 29) }
        ensures ok { OnOk result ((s : State) → Shows self.old s
            → Tells (Asks (reply question.now)) (counter made.old made.new) (counter looks.old looks.new)
            s (string_bytes text.old) (string_bytes text.new) self.new) }
        ensures err { OnErr result ((s : State) → Shows self.old s
            → MayGoOn (Asks (reply question.now)) (counter made.old made.new) (counter looks.old looks.new) s) }
        ensures count { (n : ℕ) → IsFew self.old n → IsFew self.new (n + 1) }
    {
        let note = self.paint_if_pending(made, looks)?;
        push_paint(alloc, text, &note)?;
        self.push_reply(alloc, question, text)
    }

    /// Puts the answer to a command at the end of a text.
    pub(crate) fn answer(
        &mut self,
        alloc: Global,
        command: &Command,
        text: &mut String,
        made: &mut Steps<A>,
        looks: &mut Steps<B>,
    ) -> Result<(), NoMemory>
        requires few { IsFew self.old (2 ^ 29) }
        ensures ok { OnOk result ((s : State) → Shows self.old s
            → Tells (MachineStep command.now) (counter made.old made.new) (counter looks.old looks.new)
            s (string_bytes text.old) (string_bytes text.new) self.new) }
        ensures err { OnErr result ((s : State) → Shows self.old s
            → MayGoOn (MachineStep command.now) (counter made.old made.new) (counter looks.old looks.new) s) }
        ensures count { (n : ℕ) → IsFew self.old n → IsFew self.new (n + 1) }
    {
        match command {
            Command::Change(edit) => {
                let refused = self.edit(alloc, edit, looks)?;
                push_edit(alloc, text, &refused)
            }
            Command::Undo => {
                let done = self.undo()?;
                push_line(alloc, text, &Answer::Undone(done))
            }
            Command::Paint => {
                let note = self.paint(made, looks)?;
                push_line(alloc, text, &painted(&note))
            }
            question => self.ask(alloc, question, text, made, looks),
        }
    }

    /// Does a command without its answer.
    pub(crate) fn perform(
        &mut self,
        alloc: Global,
        command: &Command,
        made: &mut Steps<A>,
        looks: &mut Steps<B>,
    ) -> Result<(), NoMemory>
        requires few { IsFew self.old (2 ^ 29) }
        ensures ok { OnOk result ((s : State) → Shows self.old s
            → Does (MachineStep command.now) (counter made.old made.new) (counter looks.old looks.new) s self.new) }
        ensures err { OnErr result ((s : State) → Shows self.old s
            → MayGoOn (MachineStep command.now) (counter made.old made.new) (counter looks.old looks.new) s) }
        ensures count { (n : ℕ) → IsFew self.old n → IsFew self.new (n + 1) }
        ensures watched { OnOk result (Watched self.old.engine self.new.engine) }
    {
        match command {
            Command::Change(edit) => {
                let _refused = self.edit(alloc, edit, looks)?;
                Ok(())
            }
            Command::Undo => {
                let _done = self.undo()?;
                Ok(())
            }
            Command::Paint => {
                let _note = self.paint(made, looks)?;
                Ok(())
            }
            _ => {
                let _note = self.paint_if_pending(made, looks)?;
                Ok(())
            }
        }
    }

    /// Paints at the end of a run, where a paint is pending.
    pub(crate) fn finish(
        &mut self,
        made: &mut Steps<A>,
        looks: &mut Steps<B>,
    ) -> Result<(), NoMemory>
        requires few { IsFew self.old (2 ^ 29) }
        ensures ok { OnOk result ((s : State) → Shows self.old s
            → Does (PaintsIf self.old.engine.pending) (counter made.old made.new) (counter looks.old looks.new) s
            self.new) }
        ensures done { OnOk result (self.new.engine.pending ≡ false) }
        ensures err { OnErr result ((s : State) → Shows self.old s
            → MayGoOn (PaintsIf self.old.engine.pending) (counter made.old made.new) (counter looks.old looks.new) s) }
        ensures watched { OnOk result (Watched self.old.engine self.new.engine) }
    {
        let _note = self.paint_if_pending(made, looks)?;
        Ok(())
    }

    /// The picture of what is painted. No paint is pending.
    pub(crate) fn picture(&self, alloc: Global) -> Result<Vec<u8>, NoMemory>
        requires { self.now.engine.pending ≡ false }
        ensures { IfOk result (λ bytes. bytes.items ≡ picture self.now.engine.tree) }
    {
        let _root = self.engine.tree().root();
        let _list = self.engine.view();
        let canvas = self.engine.canvas();
        let _pixels = canvas.pixels();
        p6(alloc, canvas)
    }

    /// The spelling of the list of what is painted. No paint is pending.
    pub(crate) fn wire(&self, alloc: Global) -> Result<Vec<u8>, NoMemory>
        requires { self.now.engine.pending ≡ false }
        ensures { IfOk result (λ bytes. bytes.items
            ≡ spelled (record { size = self.now.engine.tree.canvas; list = unordered self.now.engine.kept.entries })) }
    {
        let tree = self.engine.tree();
        let _root = tree.root();
        let size = tree.canvas();
        let list = self.engine.view();
        encode(alloc, list, size)
    }
}
