use pm_model::{MAGIC, PPtr, Place, fresh};
use std::test::Fail;

#[test]
fn a_pointer_names_a_place(rt: HostRuntime) {
    for (place, word) in [
        (0, 4_294_967_296),
        (2056, 4_294_969_352),
        (32769, 8_589_934_593),
    ] {
        assert_eq!(rt; PPtr::of(Place(place)).word(), word);
        let read = PPtr::try_read(word, 65536);
        assert_eq!(rt;
            read.and_then(|pointer| pointer.place()),
            Some(Place(place))
        );
        assert_eq!(rt; PPtr::try_read(word, place), None);
    }
    assert_eq!(rt; PPtr::null().place(), None);
}

#[test]
fn a_formatted_image_has_its_words(rt: HostRuntime) -> Result<(), Fail> {
    let words = fresh(rt.alloc(), 2)?;
    assert_eq!(rt; words.len(), 65536);
    for (place, word) in [
        (0, 8),
        (1, 8),
        (3, 8),
        (4, 0),
        (511, 0),
        (512, u64::from_le_bytes(*b"SOFORTDB")),
        (513, 2),
        (514, 0),
        (32767, 0),
        (32768, 8),
        (32769, 0),
        (65535, 0),
    ] {
        assert_eq!(rt; words.get(place).copied(), Some(word));
    }
    assert_eq!(rt; MAGIC.to_le_bytes(), *b"SOFORTDB");
    Ok(())
}
