//! The words of the command line.
ghost use Rattle.std.specs.Prelude.{◌≡◌, map, string_bytes};
ghost use Rattle.rd_why.specs.Questions as spec;

use rd_run::number_in;

/// What is asked: why the leaves over a pixel lie as they do, in lines or in JSON.
#[derive(Clone, Copy, Debug, PartialEq, Eq)]
pub struct Question {
    pub x: i32,
    pub y: i32,
    pub json: bool,
}

/// The question of a column and a row, where both are numbers.
fn asked(x: &str, y: &str, json: bool) -> Option<Question>
    ensures { result ≡ spec.asked json (spec.coordinate x.now) (spec.coordinate y.now) }
{
    let x = number_in(x, 0, 2_147_483_647)?;
    let y = number_in(y, 0, 2_147_483_647)?;
    Some(Question {
        x: x as i32,
        y: y as i32,
        json,
    })
}

/// What the words ask for; None where they are of no form.
pub(crate) fn question_of(words: &[String]) -> Option<Question>
    ensures { result ≡ spec.question_of (map string_bytes words.now) }
{
    match words {
        [x, y] => asked(x, y, false),
        [x, y, flag] => {
            if flag.as_str() == "--json" {
                asked(x, y, true)
            } else {
                None
            }
        }
        _ => None,
    }
}
