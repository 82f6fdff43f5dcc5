//! Bytes as a message.
ghost use Rattle.std.specs.Prelude.{◌≡◌, IfOk, IsTrue, length, nat_eq, if◌then◌else◌};
ghost use Rattle.fab_base.specs.declared.messages.Message.{Message};
ghost use Rattle.fab_codec.specs.declared.faults.CodeFault.TheVariants.{Trailing};
ghost use Rattle.fab_rules.specs.Format.{fits};
ghost use Rattle.fab_rules.specs.Spelling.{spelling_of};
ghost use Rattle.msg_read.specs.Steps.{Gives};
ghost use Rattle.msg_read.specs.Reading.{message, whole, reading_of};

use crate::cursor::Cursor;
use crate::faults::DecodeFault;
use fab_base::{LONGEST_MESSAGE, Message};
use fab_codec::CodeFault;
use std::alloc::Global;

/// Bytes of at most the greatest length.
#[tactic(auto, unfolding(crate::specs::Reading::reading_of))]
fn read_all(alloc: Global, bytes: &[u8]) -> Result<Message, DecodeFault>
    ensures { Gives (λ m. m) result (reading_of bytes.now) }
{
    if bytes.len() > LONGEST_MESSAGE {
        return Err(DecodeFault::Code(CodeFault::TooLarge {
            place: LONGEST_MESSAGE as u64,
        }));
    }
    read_whole(alloc, bytes)
}

/// The format, a message, and nothing behind it.
fn read_whole(alloc: Global, bytes: &[u8]) -> Result<Message, DecodeFault>
    ensures { Gives (λ m. m) result (whole message bytes.now) }
{
    let mut cursor = Cursor {
        alloc,
        bytes,
        place: 0,
    };
    cursor.tagged(1)?;
    let message = cursor.message()?;
    ended(bytes, cursor.place, message)
}

/// What was read, if no byte is left at the place.
fn ended<T: Drop>(bytes: &[u8], place: usize, read: T) -> Result<T, DecodeFault>
    ensures { Gives (λ x. x) result (if nat_eq place (length bytes.now) then Ok read else Err (Trailing place)) }
{
    if place == bytes.len() {
        Ok(read)
    } else {
        Err(DecodeFault::Code(CodeFault::Trailing {
            place: place as u64,
        }))
    }
}

/// The message that the bytes spell, or their first fault (ours). Bytes beyond the greatest length are `TooLarge` there. Of others the
/// fault is the first that a reader meets from the left: `Short` where a field doesn't end inside the bytes, `BadTag` at a format, a
/// tag, a kind or an outcome that isn't an expected one, `TooLarge` at a count or a length above its greatest, `NotAscending` at a
/// signer or a slot that doesn't come after the one before it in its list, `Trailing` where bytes stand behind the spelling. A field is
/// read whole before it is judged. `NoMemory` may come in place of any other answer.
///
/// Memory is taken for what was read, and time and memory grow as the length.
pub fn decode(alloc: Global, bytes: &[u8]) -> Result<Message, DecodeFault>
    // What is read fits, and is spelled so.
    ensures found { IfOk result (λ m. IsTrue (fits m) × (bytes.now ≡ spelling_of m)) }
    // What fits and is spelled so is read.
    ensures only { (m : Message) → IsTrue (fits m) → bytes.now ≡ spelling_of m → Gives (λ m. m) result (Ok m) }
    // Which message and which fault it is.
    ensures exact { Gives (λ m. m) result (reading_of bytes.now) }
{
    read_all(alloc, bytes)
}
