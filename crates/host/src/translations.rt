// The translator's text: its task file, over the front of lent room.
ghost use Rattle.std.specs.Prelude.{◌≡◌, length};
ghost use Rattle.rules.specs.Answers.{answer, answer_to};
ghost use Rattle.rules.specs.File.{file_of};
ghost use Rattle.rules.specs.Translation.{text_task, translation_verdict, translation_after};
ghost use Rattle.host.specs.Cells.{counted};

use crate::answers::{accept, refuse};

// The task file of a whole text, and how many bytes it has; refusals 30 to 32, 3 to 7 and 10.
#[unsafe(no_mangle)]
pub extern "C" fn wawrolen_translate(
    text: &[u8],
    room: &mut [u8],
    bytes: &mut usize,
    detail: &mut usize,
) -> usize
    ensures detail_after { answer result detail.new ≡ answer_to (translation_verdict text.now (length room.old)) }
    ensures bytes_after { bytes.new
        ≡ counted (translation_verdict text.now (length room.old)) (length (file_of (text_task text.now))) }
    ensures room_after { room.new ≡ translation_after text.now room.old }
{
    match translator::translate(text, room) {
        Ok(written) => {
            *bytes = written;
            accept(detail)
        }
        Err(why) => {
            *bytes = 0;
            refuse(why, detail)
        }
    }
}
