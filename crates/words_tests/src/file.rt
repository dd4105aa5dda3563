ghost use Rattle.std.specs.Prelude.{◌≡◌, length, IfOk};
ghost use Rattle.pm_image.specs.Spelling.{IsWhole};

use pm_image::*;
use std::alloc::Global;
use std::test::Fail;

// The words of the formatted image of one segment.
fn formatted_words(alloc: Global) -> Result<Vec<u64>, Fail>
    ensures { IfOk result (λ words. IsWhole words.items) }
{
    let mut words = Vec::new(alloc);
    words.resize(32768, 0)?;
    words[0] = 8;
    words[1] = 8;
    words[2] = 8;
    words[3] = 8;
    words[512] = 0x4244_5452_4f46_4f53;
    words[513] = 2;
    Ok(words)
}

// The bytes of that image: its pages 0 and 1 are stored.
fn formatted_bytes(alloc: Global) -> Result<Vec<u8>, Fail>
    ensures { IfOk result (λ bytes. length bytes.items ≡ 8220) }
{
    let mut bytes = Vec::new(alloc);
    bytes.extend_from_slice(b"SOFORTPM\x01\0\0\0\x01\0\0\0\x02\0\0\0\0\0\0\0")?;
    for _ in 0..4 {
        bytes.extend_from_slice(b"\x08\0\0\0\0\0\0\0")?;
    }
    bytes.resize(4120, 0)?;
    bytes.extend_from_slice(b"\x01\0\0\0SOFORTDB\x02")?;
    bytes.resize(8220, 0)?;
    Ok(bytes)
}

#[test]
fn a_formatted_image_is_written_and_read(rt: HostRuntime) -> Result<(), Fail> {
    let words = formatted_words(rt.alloc())?;
    let bytes = formatted_bytes(rt.alloc())?;
    let written = encode(rt.alloc(), words.as_slice())?;
    assert_eq!(rt; written.as_slice(), bytes.as_slice());
    let read = decode(rt.alloc(), bytes.as_slice())?;
    assert_eq!(rt; read.as_slice(), words.as_slice());
    Ok(())
}

// The fault that is told of the first bytes of that image, so many of them.
fn fault_of_beginning(alloc: Global, len: usize) -> Result<Option<ImageError>, Fail> {
    let mut bytes = formatted_bytes(alloc)?;
    bytes.truncate(len);
    Ok(decode(alloc, bytes.as_slice()).err())
}

// That of its bytes with one of them changed.
fn fault_of_changed(alloc: Global, place: usize, byte: u8) -> Result<Option<ImageError>, Fail> {
    let mut bytes = formatted_bytes(alloc)?;
    if let Some(there) = bytes.get_mut(place) {
        *there = byte;
    }
    Ok(decode(alloc, bytes.as_slice()).err())
}

// That of so many bytes: those of the image, with another number of stored pages, a byte, and zeros behind it.
fn fault_of_longer(
    alloc: Global,
    pages: u8,
    byte: u8,
    len: usize,
) -> Result<Option<ImageError>, Fail> {
    let mut bytes = formatted_bytes(alloc)?;
    bytes[16] = pages;
    bytes.push(byte)?;
    bytes.resize(len, 0)?;
    Ok(decode(alloc, bytes.as_slice()).err())
}

#[test]
fn the_first_fault_is_told(rt: HostRuntime) -> Result<(), Fail> {
    for len in [0, 7, 8, 11, 12, 15, 16, 19, 20, 4119, 4120, 8219] {
        let fault = fault_of_beginning(rt.alloc(), len)?;
        assert_eq!(rt; fault, Some(ImageError::Truncated), "of {len} bytes");
    }
    for (place, byte, fault) in [
        (7, b'N', ImageError::BadMagic),
        (8, 2, ImageError::BadVersion),
        (12, 0, ImageError::BadSize),
        (12, 129, ImageError::BadSize),
        (16, 65, ImageError::BadSize),
        (16, 3, ImageError::Truncated),
        (16, 1, ImageError::Trailing { at: 4120 }),
        (20, 1, ImageError::BadPage { at: 1 }),
        (4120, 0, ImageError::BadPage { at: 1 }),
        (4120, 64, ImageError::BadPage { at: 1 }),
    ] {
        let told = fault_of_changed(rt.alloc(), place, byte)?;
        assert_eq!(rt; told, Some(fault), "{byte} at {place}");
    }
    for (pages, byte, len, fault) in [
        (2, 0, 8221, ImageError::Trailing { at: 8220 }),
        (3, 2, 12320, ImageError::BadPage { at: 2 }),
    ] {
        assert_eq!(rt; fault_of_longer(rt.alloc(), pages, byte, len)?, Some(fault));
    }
    Ok(())
}

#[test]
fn faults_are_printed(rt: HostRuntime) -> Result<(), Fail> {
    for (error, text) in [
        (ImageError::BadMagic, "bad magic"),
        (ImageError::BadVersion, "bad version"),
        (ImageError::BadSize, "bad size"),
        (ImageError::BadPage { at: 2 }, "bad page 2"),
        (ImageError::Truncated, "truncated"),
        (ImageError::Trailing { at: 20 }, "trailing at 20"),
        (ImageError::NoMemory, "no memory"),
    ] {
        let printed = format!(in rt.alloc(); "{error}")?;
        assert_eq!(rt; printed.as_str(), text);
    }
    Ok(())
}
