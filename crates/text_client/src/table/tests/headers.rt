ghost use Rattle.std.specs.Prelude.{◌≡◌, length};

use super::reader::{Answer, answer_of};
use byteorder::{ByteOrder, LittleEndian};
use host_gpt::{TableError, Which, crc32};
use std::alloc::{AllocError, Global};
use std::test::Fail;

// A primary header in an image that is zero but for it, and what a reader is to answer.
#[derive(Clone, Copy)]
struct Row {
    header_size: u32,
    my_lba: u64,
    array: u64,
    count: u32,
    entry_size: u32,
    answer: Answer,
}

const VALID: Row = Row {
    header_size: 92,
    my_lba: 1,
    array: 2,
    count: 128,
    entry_size: 128,
    answer: Answer::Table(Which::Primary),
};

const ABSENT: Row = Row {
    answer: Answer::Error(TableError::NoTable),
    ..VALID
};

const LARGE: Row = Row {
    answer: Answer::Error(TableError::TooLarge),
    ..VALID
};

const ROWS: [Row; 20] = [
    Row {
        header_size: 91,
        ..ABSENT
    },
    VALID,
    Row {
        header_size: 512,
        ..VALID
    },
    Row {
        header_size: 513,
        ..ABSENT
    },
    Row {
        my_lba: 2,
        ..ABSENT
    },
    Row {
        entry_size: 64,
        ..ABSENT
    },
    Row {
        entry_size: 192,
        ..ABSENT
    },
    Row {
        entry_size: 256,
        ..VALID
    },
    Row {
        entry_size: 0x8000_0000,
        ..LARGE
    },
    Row { count: 0, ..VALID },
    Row { count: 1, ..VALID },
    Row {
        count: 1_024,
        ..ABSENT
    },
    Row {
        count: 1_025,
        ..LARGE
    },
    Row {
        count: u32::MAX,
        ..LARGE
    },
    Row {
        array: 0,
        count: 1,
        ..VALID
    },
    Row {
        array: 127,
        count: 4,
        ..VALID
    },
    Row {
        array: 127,
        count: 5,
        ..ABSENT
    },
    Row {
        array: 128,
        count: 1,
        ..ABSENT
    },
    Row {
        array: 128,
        count: 0,
        ..VALID
    },
    Row {
        array: u64::MAX,
        count: 1,
        ..ABSENT
    },
];

// Writes the header of a row into a block of zeros.
fn fill_header(header: &mut [u8], row: &Row, array_crc: u32)
    requires { length header.old ≡ 512 }
{
    header[..8].copy_from_slice(b"EFI PART");
    LittleEndian::write_u32(&mut header[12..], row.header_size);
    LittleEndian::write_u64(&mut header[24..], row.my_lba);
    LittleEndian::write_u64(&mut header[72..], row.array);
    LittleEndian::write_u32(&mut header[80..], row.count);
    LittleEndian::write_u32(&mut header[84..], row.entry_size);
    LittleEndian::write_u32(&mut header[88..], array_crc);
    let crc = crc32(&header[..row.header_size.min(512) as usize]);
    LittleEndian::write_u32(&mut header[16..], crc);
}

// An image of so many bytes with this header in the second block.
fn image_with(alloc: Global, len: usize, size: u32, row: &Row) -> Result<Vec<u8>, AllocError> {
    let array = row.count as u64 * row.entry_size as u64;
    let zeros = vec![in alloc; 0u8; array.min(1_048_576) as usize]?;
    let start = size as usize;
    let mut image = vec![in alloc; 0u8; start + 512]?;
    fill_header(&mut image[start..], row, crc32(&zeros));
    image.resize(len, 0)?;
    Ok(image)
}

#[test]
fn fields_at_their_edges(rt: HostRuntime) -> Result<(), Fail> {
    let alloc = rt.alloc();
    for (i, row) in ROWS.iter().enumerate() {
        let image = image_with(alloc, 65_536, 512, row)?;
        assert_eq!(rt;
            answer_of(alloc, image, 512, Vec::new(alloc)),
            row.answer,
            "row {i}"
        );
    }
    Ok(())
}

#[test]
fn sizes_of_blocks_and_images(rt: HostRuntime) -> Result<(), Fail> {
    let alloc = rt.alloc();
    let row = Row { count: 0, ..VALID };
    for (len, size, answer) in [
        (0, 512, ABSENT.answer),
        (512, 512, ABSENT.answer),
        (1_023, 512, ABSENT.answer),
        (1_024, 512, VALID.answer),
        (1_535, 512, VALID.answer),
        (2_048, 1_024, VALID.answer),
        (4_096, 2_048, VALID.answer),
        (8_192, 4_096, VALID.answer),
    ] {
        let image = image_with(alloc, len, size, &row)?;
        assert_eq!(rt;
            answer_of(alloc, image, size, Vec::new(alloc)),
            answer,
            "{len} bytes"
        );
    }
    Ok(())
}
