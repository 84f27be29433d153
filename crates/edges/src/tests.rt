// Each test tries a call at its last good value and one past it.
use common::list::List;
use format::sentence::SentenceFields;
use framing::sentence::Sentence;
use register::entry::Entry;
use stream::answers::{Fault, Taken};
use stream::intake::Intake;

#[test]
fn a_delivery_of_8192_bytes_and_of_8193(rt: HostRuntime) {
    let bytes = [0u8; 8193];
    let mut intake = Intake::new();
    assert_eq!(rt; intake.deliver(&bytes), Err(Fault::NoRoom));
    assert_eq!(rt; intake.deliver(&bytes[0..8192]), Ok(()));
    assert_eq!(rt; intake.deliver(&bytes[0..1]), Err(Fault::NoRoom));
    assert_eq!(rt; intake.deliver(&bytes[0..0]), Ok(()));
}

#[test]
fn a_space_of_the_reach_and_one_byte_under_it(rt: HostRuntime) {
    let mut space = [0u8; 512];
    let mut table = [Entry::default(); 1];
    let mut register = List::new(&mut table);
    let mut intake = Intake::new();
    assert_eq!(rt;
        intake.take(
            &Sentence,
            &SentenceFields,
            &mut register,
            &mut space[0..511],
        ),
        Err(Fault::SpaceShort)
    );
    assert_eq!(rt;
        intake.take(&Sentence, &SentenceFields, &mut register, &mut space),
        Ok(Taken::NotYet)
    );
}

#[test]
fn the_last_place_of_a_register(rt: HostRuntime) {
    let mut space = [0u8; 512];
    let mut table = [Entry::default(); 1];
    let mut register = List::new(&mut table);
    let mut intake = Intake::new();
    assert_eq!(rt; intake.deliver(b"$A*41\r\n"), Ok(()));
    let entry = Entry {
        place: 0,
        len: 7,
        kind: 2,
        series: 0,
        verdict: 0,
        fault: 0,
    };
    assert_eq!(rt;
        intake.take(&Sentence, &SentenceFields, &mut register, &mut space),
        Ok(Taken::Record(entry))
    );
    assert_eq!(rt;
        intake.take(&Sentence, &SentenceFields, &mut register, &mut space),
        Err(Fault::RegisterFull)
    );
}

#[test]
fn a_closed_stream_takes_no_bytes_and_is_closed_once(rt: HostRuntime) {
    let mut intake = Intake::new();
    assert_eq!(rt; intake.close(), Ok(()));
    assert_eq!(rt; intake.close(), Err(Fault::Closed));
    assert_eq!(rt; intake.deliver(b""), Err(Fault::Closed));
}
