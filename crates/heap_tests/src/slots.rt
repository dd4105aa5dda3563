use heap_small::{Class, class_for, class_words, first_free, slots, with, without};

#[test]
fn classes(rt: HostRuntime) {
    let table = [(8, 63), (16, 31), (32, 15), (64, 7), (128, 3), (256, 1)];
    for number in 0..6u8 {
        let (words, count) = table[usize::from(number)];
        let class = Class::new(number);
        assert_eq!(rt; class.number(), number);
        assert_eq!(rt; class_words(class), words);
        assert_eq!(rt; slots(class), count);
        assert_eq!(rt; class_for(words), Some(class));
    }
    for (words, number) in [
        (1, Some(0)),
        (9, Some(1)),
        (80, Some(4)),
        (129, Some(5)),
        (257, None),
        (32256, None),
    ] {
        let class = class_for(words);
        assert_eq!(rt; class.map(|class| class.number()), number);
    }
}

#[test]
fn bitmaps(rt: HostRuntime) {
    let class = Class::new(3);
    assert_eq!(rt; first_free(0, class), Some(0));
    assert_eq!(rt; first_free(0b101_1011, class), Some(2));
    assert_eq!(rt; first_free(0b111_1111, class), None);
    assert_eq!(rt; first_free(u64::MAX, Class::new(0)), None);
    assert_eq!(rt; with(0b1, 2), 0b101);
    assert_eq!(rt; without(0b101, 2), 0b1);
    assert_eq!(rt; without(0b1, 2), 0b1);
}
