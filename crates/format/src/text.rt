// String records, kind 1, series 0xA0: an identifier byte, a text, and a final zero byte if there is one.
ghost use Rattle.std.specs.Prelude.{◌≡◌, ◌<◌, length};
ghost use Rattle.format.specs.Meaning.{Leaves, accepted};
ghost use Rattle.format.specs.Text.{text_claims, text_meaning, text_parts, ends_zero};
ghost use Rattle.format.specs.Texts.{text_lawful};

use crate::defect::Defect;
use crate::format::{Format, Part, PartsFault, RecordFault};
use crate::parts::{add_all, plain_part};
use common::list::List;

const KIND: u8 = 1;

const SERIES: u8 = 0xA0;

const HEADER: usize = 10;

// The format of string records.
#[derive(Clone, Copy, Debug)]
pub struct Text;

fn is_text(kind: u8, bytes: &[u8]) -> bool
    ensures { result ≡ text_claims kind bytes.now }
{
    kind == KIND && bytes.len() >= HEADER && bytes[2] == SERIES
}

fn judge_text(kind: u8, bytes: &[u8]) -> Result<(), RecordFault>
    ensures { result ≡ (text_meaning kind bytes.now).judgement }
{
    if !is_text(kind, bytes) {
        return Err(Defect::Unclaimed.at(0));
    }
    if bytes.len() <= HEADER {
        return Err(Defect::NoData.at(4));
    }
    Ok(())
}

fn has_zero_end(bytes: &[u8]) -> bool
    ensures { result ≡ ends_zero bytes.now }
{
    bytes.len() > HEADER + 1 && bytes[bytes.len() - 1] == 0
}

// The parts of a record that has an identifier byte.
fn list_text(bytes: &[u8], out: &mut List<'_, Part>) -> Result<(), PartsFault>
    requires { 10 < length bytes.now }
    ensures { Leaves (accepted (text_parts bytes.now)) out.old out.new result }
{
    let identifier = plain_part(1, 10, 1);
    let len = bytes.len();
    if has_zero_end(bytes) {
        let parts = [
            identifier,
            plain_part(2, 11, len - 12),
            plain_part(3, len - 1, 1),
        ];
        add_all(&parts, out)
    } else {
        let parts = [identifier, plain_part(2, 11, len - 11)];
        add_all(&parts, out)
    }
}

impl Format for Text {
    ghost meaning = { λ _. text_meaning };

    ghost lawful = { λ f. text_lawful };

    fn claims(&self, kind: u8, bytes: &[u8]) -> bool {
        is_text(kind, bytes)
    }

    fn judge(&self, kind: u8, bytes: &[u8]) -> Result<(), RecordFault> {
        judge_text(kind, bytes)
    }

    fn list(&self, kind: u8, bytes: &[u8], out: &mut List<'_, Part>) -> Result<(), PartsFault> {
        judge_text(kind, bytes)?;
        list_text(bytes, out)
    }
}
