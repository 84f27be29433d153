// Each test tries a draft at its last good value and one past it.
use common::list::List;
use format::format::{Format, Part};
use format::text::Text;
use framing::binary::Binary;
use framing::verdict::{Framing, Verdict};
use writing::again::{AgainFault, write_again};
use writing::draft::Draft;
use writing::drafts::DraftFull;
use writing::tag::write_tag;

// The header of a frame without data, of series 0x15.
const EMPTY: [u8; 10] = [0xA5, 0x0A, 0x15, 0x10, 0, 0, 0x8C, 0xB5, 0xD2, 0x85];

#[test]
fn no_space_and_a_space_of_nine_bytes(rt: HostRuntime) {
    let mut none = [7u8; 0];
    let mut draft = Draft::start(&mut none, 0x15);
    let added = draft.add(&[]);
    let len = draft.seal();
    assert_eq!(rt; added, Err(DraftFull));
    assert_eq!(rt; len, 0);
    let mut nine = [7u8; 9];
    let mut draft = Draft::start(&mut nine, 0x15);
    let added = draft.add(&[]);
    let len = draft.seal();
    assert_eq!(rt; added, Err(DraftFull));
    assert_eq!(rt; len, 0);
    assert_eq!(rt; nine, [7u8; 9]);
}

#[test]
fn a_space_of_ten_bytes_and_of_eleven(rt: HostRuntime) {
    let mut ten = [7u8; 10];
    let mut draft = Draft::start(&mut ten, 0x15);
    let empty = draft.add(&[]);
    let byte = draft.add(&[1]);
    let len = draft.seal();
    assert_eq!(rt; empty, Ok(()));
    assert_eq!(rt; byte, Err(DraftFull));
    assert_eq!(rt; len, 10);
    assert_eq!(rt; ten, EMPTY);
    let mut eleven = [7u8; 11];
    let mut draft = Draft::start(&mut eleven, 0x15);
    let two = draft.add(&[1, 2]);
    let byte = draft.add(&[1]);
    let len = draft.seal();
    assert_eq!(rt; two, Err(DraftFull));
    assert_eq!(rt; byte, Ok(()));
    assert_eq!(rt; len, 11);
    assert_eq!(rt; Binary.look(&eleven), Verdict::Frame { len: 11, kind: 1 });
}

#[test]
fn data_of_8182_bytes_and_of_8183(rt: HostRuntime) {
    let data = [3u8; 8183];
    let mut space = [7u8; 8194];
    let mut draft = Draft::start(&mut space, 0x15);
    let over = draft.add(&data);
    let most = draft.add(&data[0..8182]);
    let more = draft.add(&data[0..1]);
    let len = draft.seal();
    assert_eq!(rt; over, Err(DraftFull));
    assert_eq!(rt; most, Ok(()));
    assert_eq!(rt; more, Err(DraftFull));
    assert_eq!(rt; len, 8192);
    assert_eq!(rt; Binary.look(&space), Verdict::Frame { len: 8192, kind: 1 });
}

#[test]
fn a_scrapped_draft_leaves_zeros_where_its_data_were(rt: HostRuntime) {
    let mut space = [7u8; 14];
    let mut draft = Draft::start(&mut space, 0x15);
    let added = draft.add(&[1, 2]);
    draft.scrap();
    assert_eq!(rt; added, Ok(()));
    assert_eq!(rt; space, [7, 7, 7, 7, 7, 7, 7, 7, 7, 7, 0, 0, 7, 7]);
}

#[test]
fn a_tag_written_again_from_its_parts(rt: HostRuntime) {
    let mut space = [0u8; 14];
    assert_eq!(rt; write_tag(b"ab", &mut space[0..13]), Err(DraftFull));
    assert_eq!(rt; write_tag(b"ab", &mut space), Ok(14));
    let mut table = [Part::default(); 3];
    let mut parts = List::new(&mut table);
    assert!(rt; Text.list(1, &space, &mut parts).is_ok());
    let mut copy = [7u8; 15];
    assert_eq!(rt;
        write_again(&space, parts.as_slice(), &mut copy[0..13]),
        Err(AgainFault::Full)
    );
    assert_eq!(rt; copy, [7u8; 15]);
    assert_eq!(rt; write_again(&space, parts.as_slice(), &mut copy), Ok(14));
    assert_eq!(rt; copy[14], 7);
    assert!(rt; copy[0..14] == space[0..14]);
    assert_eq!(rt;
        write_again(&space[0..13], parts.as_slice(), &mut copy),
        Err(AgainFault::Outside)
    );
}
