//! The lines of answers.

ghost use Rattle.std.specs.Prelude.{◌≡◌, ◌++◌, ◌∷◌, [], Option, OnOk, OnErr, string_bytes, option_map};
ghost use Rattle.rd_report.specs.Answers as answers;

use crate::words::push_opaque;
use rd_geom::Color;
use rd_tree::Id;
use std::alloc::{AllocError, Global};

/// What the program answers to a command, a dump excepted.
#[derive(Clone, Copy, Drop)]
pub enum Answer<'a> {
    /// An edit was done.
    Done,
    /// An edit was refused by the test of this number, from 1 to 9.
    Refused(u8),
    /// A paint: its number from 1, the items that it made, the others of the list, and the pixels of its area.
    Painted {
        number: u64,
        built: u64,
        kept: u64,
        area: u64,
    },
    /// The box that a pointer hits; None where it hits nothing.
    Hit(Option<&'a Id>),
    /// The colour of a pixel; None off the canvas.
    Pixel(Option<Color>),
    /// The SHA-256 digest (FIPS 180-4) of the canvas's picture.
    Shot([u8; 32]),
    /// An edit was taken back by so many edits; None where there was none.
    Undone(Option<u64>),
}

fn push_hit(out: &mut String, id: &Option<&Id>) -> Result<(), AllocError>
    ensures { OnOk result (string_bytes out.new ≡ string_bytes out.old
        ++ answers.hit_line (option_map (λ i. i.now) id.now)) }
{
    match id {
        Some(id) => {
            let text = id.text();
            write!(out, "hit {text}\n")
        }
        None => out.push_str("hit none\n"),
    }
}

fn push_pixel(out: &mut String, color: &Option<Color>) -> Result<(), AllocError>
    ensures { OnOk result (string_bytes out.new ≡ string_bytes out.old ++ answers.pixel_line color.now) }
{
    match color {
        Some(color) => {
            out.push_str("pixel ")?;
            push_opaque(out, color)?;
            out.push_str("\n")
        }
        None => out.push_str("pixel none\n"),
    }
}

fn push_shot(alloc: Global, out: &mut String, digest: &[u8; 32]) -> Result<(), AllocError>
    ensures { OnOk result (string_bytes out.new ≡ string_bytes out.old ++ answers.shot_line digest.now) }
{
    let text = hex::encode(alloc, digest)?;
    write!(out, "shot {text}\n")
}

fn push_undone(out: &mut String, edits: &Option<u64>) -> Result<(), AllocError>
    ensures { OnOk result (string_bytes out.new ≡ string_bytes out.old ++ answers.undone_line edits.now) }
{
    match edits {
        Some(edits) => write!(out, "undone {edits}\n"),
        None => out.push_str("undo none\n"),
    }
}

fn push_answer(alloc: Global, out: &mut String, answer: &Answer<'_>) -> Result<(), AllocError>
    ensures { OnOk result (string_bytes out.new ≡ string_bytes out.old ++ answers.answer_line answer.now) }
{
    match answer {
        Answer::Done => out.push_str("ok\n"),
        Answer::Refused(number) => write!(out, "refused {number}\n"),
        Answer::Painted {
            number,
            built,
            kept,
            area,
        } => write!(
            out,
            "paint {number} built {built} kept {kept} area {area}\n"
        ),
        Answer::Hit(id) => push_hit(out, id),
        Answer::Pixel(color) => push_pixel(out, color),
        Answer::Shot(digest) => push_shot(alloc, out, digest),
        Answer::Undone(edits) => push_undone(out, edits),
    }
}

/// Puts the line of an answer at the end of a text. After a refusal the text is as it was.
pub fn push_line(alloc: Global, out: &mut String, answer: &Answer<'_>) -> Result<(), AllocError>
    ensures pushed { OnOk result (string_bytes out.new ≡ string_bytes out.old ++ answers.answer_line answer.now) }
    ensures kept { OnErr result (string_bytes out.new ≡ string_bytes out.old) }
{
    let mut line = String::new(alloc);
    push_answer(alloc, &mut line, answer)?;
    out.push_str(&line)
}
