// Sentences, kind 2: the fields between `$`, the commas and the first `*`.
ghost use Rattle.std.specs.Prelude.{◌≡◌, ◌+◌, ◌≤◌, length, drop};
ghost use Rattle.common.specs.Lists.{items, room};
ghost use Rattle.format.specs.Meaning.{Leaves, accepted};
ghost use Rattle.common.specs.Added.{Added};
ghost use Rattle.format.specs.Sentence.{has_star, fields, commas, comma_at, sentence_claims, sentence_meaning};
ghost use Rattle.format.specs.Sentences.{sentence_lawful};

use crate::defect::Defect;
use crate::format::{Format, Part, PartsFault, RecordFault};
use crate::parts::{add, plain_part};
use common::list::List;

const KIND: u8 = 2;

const MOST_FIELDS: usize = 64;

// The format of sentences.
#[derive(Clone, Copy, Debug)]
pub struct SentenceFields;

fn has_star(bytes: &[u8]) -> bool
    ensures { result ≡ has_star bytes.now }
{
    bytes.contains(&b'*')
}

fn is_sentence(kind: u8, bytes: &[u8]) -> bool
    ensures { result ≡ sentence_claims kind bytes.now }
{
    kind == KIND && !bytes.is_empty() && bytes[0] == b'$' && has_star(bytes)
}

// How many commas stand before the first `*`.
fn comma_count(text: &[u8]) -> usize
    ensures { result ≡ commas text.now }
{
    let mut n = 0;
    for b in text {
        match *b {
            b'*' => return n,
            b',' => n += 1,
            _ => {}
        }
    }
    n
}

// The place of the comma behind as many fields as are allowed, before the first `*`; the text begins at place 1.
fn last_comma(text: &[u8]) -> Option<usize>
    ensures { result ≡ comma_at 63 1 text.now }
{
    let mut others = MOST_FIELDS - 1;
    for (i, b) in text.iter().enumerate() {
        match *b {
            b'*' => return None,
            b',' => {
                if others == 0 {
                    return Some(i + 1);
                }
                others -= 1;
            }
            _ => {}
        }
    }
    None
}

// The text behind `$`.
fn behind_dollar(bytes: &[u8]) -> &[u8]
    requires { 1 ≤ length bytes.now }
    ensures { result.now ≡ drop 1 bytes.now }
{
    &bytes[1..]
}

fn judge_sentence(kind: u8, bytes: &[u8]) -> Result<(), RecordFault>
    ensures { result ≡ (sentence_meaning kind bytes.now).judgement }
{
    if !is_sentence(kind, bytes) {
        return Err(Defect::Unclaimed.at(0));
    }
    match last_comma(behind_dollar(bytes)) {
        None => Ok(()),
        Some(place) => Err(Defect::ManyFields.at(place)),
    }
}

// Puts the fields of the text behind the other parts, where there is room for all.
fn add_fields(text: &[u8], out: &mut List<'_, Part>)
    requires { (commas text.now ≤ 63) × (length (items out.old) + commas text.now + 1 ≤ room out.old) }
    ensures { Added out.old (fields 1 1 0 text.now) out.new }
{
    let mut field = plain_part(1, 1, 0);
    for b in text {
        match *b {
            b'*' => break,
            b',' => {
                add(field, out);
                field = plain_part(field.code + 1, field.place + field.count + 1, 0);
            }
            _ => field.count += 1,
        }
    }
    add(field, out);
}

// The fields of a text that has not too many.
fn list_fields(text: &[u8], out: &mut List<'_, Part>) -> Result<(), PartsFault>
    requires { commas text.now ≤ 63 }
    ensures { Leaves (accepted (fields 1 1 0 text.now)) out.old out.new result }
{
    if out.room() - out.len() <= comma_count(text) {
        return Err(PartsFault::TableShort);
    }
    add_fields(text, out);
    Ok(())
}

impl Format for SentenceFields {
    ghost meaning = { λ _. sentence_meaning };

    ghost lawful = { λ f. sentence_lawful };

    fn claims(&self, kind: u8, bytes: &[u8]) -> bool {
        is_sentence(kind, bytes)
    }

    fn judge(&self, kind: u8, bytes: &[u8]) -> Result<(), RecordFault> {
        judge_sentence(kind, bytes)
    }

    #[tactic(auto, using(crate::specs::Sentences::sentence_accepted))]
    fn list(&self, kind: u8, bytes: &[u8], out: &mut List<'_, Part>) -> Result<(), PartsFault> {
        judge_sentence(kind, bytes)?;
        list_fields(behind_dollar(bytes), out)
    }
}
