//! Texts of rows, written and read.

use crn_rows::{Row, Sheet, read_rows};
use std::alloc::{AllocError, Global};
use std::test::Fail;

#[test]
fn written_as_they_are(rt: HostRuntime) -> Result<(), Fail> {
    let sheet = Sheet::new(rt.alloc());
    assert_eq!(rt; sheet.into_text()?.as_slice(), b"".as_slice());
    let sheet = Sheet::new(rt.alloc())
        .with_row(&[b"state", b"-2", b"45"])?
        .with_row(&[b"A_z-9", b"1/2", b""])?
        .with_row(&[b"end", b"5"])?;
    assert_eq!(rt;
        sheet.into_text()?.as_slice(),
        b"state,-2,45\nA_z-9,1/2,\nend,5\n".as_slice()
    );
    Ok(())
}

// The first three fields of each row, with a bar after each and a line feed at the end.
fn shown(alloc: Global, text: &[u8]) -> Result<Vec<u8>, AllocError> {
    let mut shown = Vec::new(alloc);
    for row in read_rows(alloc, text)?.iter() {
        for place in 0..3 {
            shown.extend_from_slice(row.field(place))?;
            shown.push(b'|')?;
        }
        shown.push(b'\n')?;
    }
    Ok(shown)
}

#[test]
fn read_loosely(rt: HostRuntime) -> Result<(), Fail> {
    let table: [(&[u8], &[u8]); 7] = [
        (b"", b""),
        (b"\n\n", b""),
        (b"a,b\nc,d,e\nf", b"a|b||\nc|d|e|\nf|||\n"),
        (b"a,\n", b"a|||\n"),
        (b"\"a,b\",\"c\"\"d\"\n", b"a,b|c\"d||\n"),
        (b"a,b\r\nc,d\r\n", b"a|b||\nc|d||\n"),
        (b"\xef\xbb\xbfa,\xff\n", b"a|\xff||\n"),
    ];
    for (text, want) in table {
        assert_eq!(rt; shown(rt.alloc(), text)?.as_slice(), want, "{text:?}");
    }
    Ok(())
}

// The number of rows of a text, and of its last row the first two fields as natural numbers and the first and third as
// integers.
fn numbers_in(alloc: Global, text: &[u8]) -> Result<(usize, [u64; 2], [i64; 2]), AllocError> {
    let rows = read_rows(alloc, text)?;
    let (mut naturals, mut integers) = ([1; 2], [1; 2]);
    for row in rows.iter() {
        naturals = [row.natural(0), row.natural(1)];
        integers = [row.integer(0), row.integer(2)];
    }
    Ok((rows.len(), naturals, integers))
}

#[test]
fn numbers_of_fields(rt: HostRuntime) -> Result<(), Fail> {
    let text = b"0,18446744073709551615,-9223372036854775807\n";
    let (count, naturals, integers) = numbers_in(rt.alloc(), text)?;
    assert_eq!(rt; count, 1);
    assert_eq!(rt; naturals, [0, 18_446_744_073_709_551_615]);
    assert_eq!(rt; integers, [0, -9_223_372_036_854_775_807]);
    Ok(())
}

fn has_texts(row: &Row) -> bool {
    row.text(0) == "" && row.text(1) == "word" && row.text(2) == ""
}

// Whether each row of a text has the texts that are expected.
fn are_texts(alloc: Global, text: &[u8]) -> Result<bool, AllocError> {
    let rows = read_rows(alloc, text)?;
    Ok(rows.len() == 1 && rows.iter().all(has_texts))
}

// A field that is no UTF-8, a word, and a field that the row lacks.
#[test]
fn texts_of_fields(rt: HostRuntime) -> Result<(), Fail> {
    assert!(rt; are_texts(rt.alloc(), b"\xff,word\n")?);
    Ok(())
}
