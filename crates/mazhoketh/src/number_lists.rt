// Lists of whole numbers, eight bytes each, and their text, one number a line.
ghost use Rattle.std.specs.Prelude.{◌/◌, length};
ghost use Rattle.lent.specs.Word.{Answered};
ghost use Rattle.words.specs.LittleEndian.{signed, signed_bytes};
ghost use Rattle.numbers.specs.Lines.{numbers_text, listed};
ghost use Rattle.numbers.specs.Calls.{numbers_in, read_numbers_reply, write_numbers_reply};

use lent::word::word_of;
use numbers::read::read;
use numbers::write::write;

pub fn mzk_numbers_read(text: &[u8], list: &mut [u8]) -> u64
    ensures { Answered (read_numbers_reply (listed text.now) (length list.old / 8)) (signed_bytes 8 (numbers_in (listed text.now))) list.old result list.new }
{
    word_of(read(text, list))
}

pub fn mzk_numbers_write(list: &[u8], text: &mut [u8]) -> u64
    ensures { Answered (write_numbers_reply (signed 8 list.now) (length text.old)) (numbers_text (signed 8 list.now)) text.old result text.new }
{
    word_of(write(list, text))
}
