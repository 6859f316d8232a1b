//! Tests of templates.

use rx_search::Memory;
use rx_util::interpolate::{bytes, string};
use std::alloc::Global;

/// The number of a name.
fn index_of(name: &str) -> Option<usize> {
    match name {
        "42a" | "bar" => Some(1),
        "+1" | "foo" => Some(2),
        _ => None,
    }
}

/// What a group stands for: its text, where groups have texts, and else its number in brackets.
fn piece_of(has_texts: bool, number: usize) -> &'static str {
    if has_texts {
        return match number {
            1 => "yyy",
            2 => "xxx",
            _ => "",
        };
    }
    match number {
        1 => "<1>",
        2 => "<2>",
        42 => "<42>",
        _ => "<>",
    }
}

/// Appends it to a text.
fn push_piece(dst: &mut String, piece: &str) -> Result<(), Memory> {
    dst.push_str(piece)?;
    Ok(())
}

/// The template as a text.
fn text_of(alloc: Global, template: &str, has_texts: bool) -> Result<String, Memory> {
    let mut text = String::new(alloc);
    string(
        template,
        |number: usize, dst: &mut String| -> Result<(), Memory> {
            push_piece(dst, piece_of(has_texts, number))
        },
        |name: &str| index_of(name),
        &mut text,
    )?;
    Ok(text)
}

/// Appends it to bytes.
fn push_bytes(dst: &mut Vec<u8>, piece: &str) -> Result<(), Memory> {
    dst.extend_from_slice(piece.as_bytes())?;
    Ok(())
}

/// The template as bytes.
fn bytes_of(alloc: Global, template: &str, has_texts: bool) -> Result<Vec<u8>, Memory> {
    let mut text = Vec::new(alloc);
    bytes(
        template.as_bytes(),
        |number: usize, dst: &mut Vec<u8>| -> Result<(), Memory> {
            push_bytes(dst, piece_of(has_texts, number))
        },
        |name: &str| index_of(name),
        &mut text,
    )?;
    Ok(text)
}

/// A template, whether groups have texts, and its text.
type Row = (&'static str, bool, &'static str);

const ROWS: [Row; 8] = [
    ("$42a", false, "<1>"),
    ("${42}a", false, "<42>a"),
    ("${+1}", false, "<2>"),
    ("test $bar$foo", true, "test yyyxxx"),
    ("test ${wat $bar ok", true, "test ${wat yyy ok"),
    ("$$1$", false, "$1$"),
    ("a${}b$18446744073709551616c", false, "ab"),
    ("é$1é", false, "é<1>é"),
];

/// Whether the template is filled in like this, as a text and as bytes.
fn is_filled_in(alloc: Global, row: Row) -> bool {
    let (template, has_texts, want) = row;
    let text = text_of(alloc, template, has_texts);
    match (text, bytes_of(alloc, template, has_texts)) {
        (Ok(text), Ok(bytes)) => text.as_str() == want && bytes.as_slice() == want.as_bytes(),
        _ => false,
    }
}

/// The number of the first of these rows that is filled in otherwise, counted from 0.
fn first_wrong(alloc: Global, rows: &[Row]) -> Option<usize> {
    for k in 0..rows.len() {
        if !is_filled_in(alloc, rows[k]) {
            return Some(k);
        }
    }
    None
}

#[test]
fn templates_are_filled_in(rt: HostRuntime) {
    assert_eq!(rt; first_wrong(rt.alloc(), &ROWS), None);
}

/// Appends `!` to a text: group 2 wants memory before it, and group 3 behind it.
fn cut_text(dst: &mut String, number: usize) -> Result<(), Memory> {
    if number == 2 {
        return Err(Memory);
    }
    dst.push('!')?;
    if number == 3 { Err(Memory) } else { Ok(()) }
}

/// What was appended to the text `x`, and whether memory was wanting.
fn text_cut_short(alloc: Global, template: &str) -> Result<(String, bool), Memory> {
    let mut text = String::from_str(alloc, "x")?;
    let told = string(
        template,
        |number: usize, dst: &mut String| -> Result<(), Memory> { cut_text(dst, number) },
        |name: &str| index_of(name),
        &mut text,
    );
    Ok((text, told.is_err()))
}

/// Appends `!` to bytes, as `cut_text`.
fn cut_bytes(dst: &mut Vec<u8>, number: usize) -> Result<(), Memory> {
    if number == 2 {
        return Err(Memory);
    }
    dst.push(b'!')?;
    if number == 3 { Err(Memory) } else { Ok(()) }
}

/// What was appended to the byte `x`, and whether memory was wanting.
fn bytes_cut_short(alloc: Global, template: &str) -> Result<(Vec<u8>, bool), Memory> {
    let mut text = Vec::from_slice(alloc, b"x")?;
    let told = bytes(
        template.as_bytes(),
        |number: usize, dst: &mut Vec<u8>| -> Result<(), Memory> { cut_bytes(dst, number) },
        |name: &str| index_of(name),
        &mut text,
    );
    Ok((text, told.is_err()))
}

/// Whether this much of the template is appended, and memory is wanting behind it, as text and as bytes.
fn is_cut_short(alloc: Global, template: &str, want: &str, is_cut: bool) -> bool {
    let text = text_cut_short(alloc, template);
    match (text, bytes_cut_short(alloc, template)) {
        (Ok((text, text_cut)), Ok((bytes, bytes_cut))) => {
            text.as_str() == want
                && text_cut == is_cut
                && bytes.as_slice() == want.as_bytes()
                && bytes_cut == is_cut
        }
        _ => false,
    }
}

#[test]
fn templates_end_where_memory_is_wanting(rt: HostRuntime) {
    let alloc = rt.alloc();
    assert!(rt; is_cut_short(alloc, "a${1}b$$c${2}d", "xa!b$c", true));
    assert!(rt; is_cut_short(alloc, "a$bar b${3}d", "xa! b!", true));
    assert!(rt; is_cut_short(alloc, "$foo$1", "x", true));
    assert!(rt; is_cut_short(alloc, "a${1}b", "xa!b", false));
}
