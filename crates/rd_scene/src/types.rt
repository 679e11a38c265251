//! What the types of a script's parts say of their values: an id is an id, and a number fits its bits. Each is the
//! contract of a function that does nothing.

ghost use Rattle.std.specs.Prelude.{All};
ghost use Rattle.rd_scene.specs.Canonical as spec;
ghost use Rattle.rd_scene.specs.Scripts.{IsScript};

use crate::script::{Command, SceneBox, Script};
use rd_edits::Edit;
use rd_style::{Style, StyleChange};
use rd_tree::Id;

fn of_id(id: &Id)
    ensures { spec.IsId id.now }
{
    let _text = id.text();
}

fn of_id_or_none(id: &Option<Id>)
    ensures { spec.IsIdOrNone id.now }
{
    if let Some(id) = id {
        of_id(id);
    }
}

fn of_style(s: Style)
    ensures { spec.IsStyle s }
{}

fn of_change(c: StyleChange)
    ensures { spec.IsChange c }
{}

fn of_box(b: &SceneBox)
    ensures { spec.IsBox b.now }
{
    of_id(&b.id);
    of_id_or_none(&b.parent);
    of_style(b.style);
}

fn of_edit(edit: &Edit)
    ensures { spec.IsEdit edit.now }
{
    match edit {
        Edit::Insert {
            id,
            parent,
            before,
            style,
            ..
        } => {
            of_id(id);
            of_id(parent);
            of_id_or_none(before);
            of_style(*style);
        }
        Edit::Remove { id } => of_id(id),
        Edit::Move { id, parent, before } => {
            of_id(id);
            of_id(parent);
            of_id_or_none(before);
        }
        Edit::SetStyle { id, change } => {
            of_id(id);
            of_change(*change);
        }
        Edit::SetRect { id, .. } => of_id(id),
        Edit::Shift { id, .. } => of_id(id),
        Edit::Scroll { id, .. } => of_id(id),
    }
}

fn of_command(command: &Command)
    ensures { spec.IsCommand command.now }
{
    if let Command::Change(edit) = command {
        of_edit(edit);
    }
}

fn of_boxes(boxes: &[SceneBox])
    ensures { All spec.IsBox boxes.now }
{
    for b in boxes {
        of_box(b);
    }
}

fn of_commands(commands: &[Command])
    ensures { All spec.IsCommand commands.now }
{
    for command in commands {
        of_command(command);
    }
}

/// A script keeps the rules of the format, and its parts have their types.
pub(crate) fn of_script(script: &Script)
    ensures rules { IsScript script.now }
    ensures types { spec.HasItsTypes script.now }
{
    of_boxes(&script.boxes);
    of_commands(&script.commands);
}
