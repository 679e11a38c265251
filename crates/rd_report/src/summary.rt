//! The summary of a storm.

ghost use Rattle.std.specs.Prelude.{◌≡◌, ◌++◌, OnOk, OnErr, string_bytes};
ghost use Rattle.rd_report.specs.Summaries as summaries;

use std::alloc::{AllocError, Global};

/// What a storm asked for and did: its seed, boxes and edits; the edits that were done and those that were refused; the
/// paints, with the sums of the items that they made and of the pixels of their areas; and the digest of the last picture.
#[derive(Drop)]
pub struct Totals {
    pub seed: u64,
    pub boxes: u32,
    pub edits: u32,
    pub accepted: u64,
    pub refused: u64,
    pub paints: u64,
    pub built: u64,
    pub area: u64,
    pub digest: [u8; 32],
}

fn push_asked(out: &mut String, t: &Totals) -> Result<(), AllocError>
    ensures { OnOk result (string_bytes out.new ≡ string_bytes out.old ++ summaries.storm_line t.now) }
{
    let seed = t.seed;
    let boxes = t.boxes;
    let edits = t.edits;
    write!(out, "storm seed {seed} boxes {boxes} edits {edits}\n")
}

fn push_edits(out: &mut String, t: &Totals) -> Result<(), AllocError>
    ensures { OnOk result (string_bytes out.new ≡ string_bytes out.old ++ summaries.edits_line t.now) }
{
    let accepted = t.accepted;
    let refused = t.refused;
    write!(out, "accepted {accepted} refused {refused}\n")
}

fn push_paints(out: &mut String, t: &Totals) -> Result<(), AllocError>
    ensures { OnOk result (string_bytes out.new ≡ string_bytes out.old ++ summaries.paints_line t.now) }
{
    let paints = t.paints;
    let built = t.built;
    let area = t.area;
    write!(out, "paints {paints} built {built} area {area}\n")
}

/// Puts the line of the digest of a last picture at the end of a text.
pub fn push_final(alloc: Global, out: &mut String, digest: &[u8; 32]) -> Result<(), AllocError>
    ensures { OnOk result (string_bytes out.new ≡ string_bytes out.old ++ summaries.final_line digest.now) }
{
    let text = hex::encode(alloc, digest)?;
    write!(out, "final {text}\n")
}

#[tactic(auto, using(crate::proofs::Joining::joining))]
fn push_lines(alloc: Global, out: &mut String, totals: &Totals) -> Result<(), AllocError>
    ensures { OnOk result (string_bytes out.new ≡ string_bytes out.old ++ summaries.summary_lines totals.now) }
{
    push_asked(out, totals)?;
    push_edits(out, totals)?;
    push_paints(out, totals)?;
    push_final(alloc, out, &totals.digest)
}

/// Puts the four lines of a storm at the end of a text. After a refusal the text is as it was.
pub fn push_summary(alloc: Global, out: &mut String, totals: &Totals) -> Result<(), AllocError>
    ensures pushed { OnOk result (string_bytes out.new ≡ string_bytes out.old ++ summaries.summary_lines totals.now) }
    ensures kept { OnErr result (string_bytes out.new ≡ string_bytes out.old) }
{
    let mut lines = String::new(alloc);
    push_lines(alloc, &mut lines, totals)?;
    out.push_str(&lines)
}
