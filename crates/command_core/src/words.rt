// Words put at the end of a line.
ghost use Rattle.std.specs.Prelude.{◌≡◌, ◌++◌, OnOk, decimal};

use gas_model::{Bytes, NoMemory};
use itoa::Buffer;

// Words and then a number.
pub fn put_numbered(line: &mut Bytes, words: &[u8], number: u64) -> Result<(), NoMemory>
    ensures { OnOk result (line.new ≡ line.old ++ (words.now ++ decimal number)) }
{
    line.append(words)?;
    line.append(Buffer::new().format(number).as_bytes())
}

// Words and then others.
pub fn put_both(line: &mut Bytes, words: &[u8], more: &[u8]) -> Result<(), NoMemory>
    ensures { OnOk result (line.new ≡ line.old ++ (words.now ++ more.now)) }
{
    line.append(words)?;
    line.append(more)
}
