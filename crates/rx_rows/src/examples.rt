//! All matches, and the program as a function.

use rx_meta::Regex;
use rx_scan::{BytesSure, KeptSure, run, scan};
use rx_search::Open;
use std::alloc::Global;
use std::sync::Wait;
use std::test::Fail;
use std::thread::Threads;

/// Adds where the key of each setting stands.
fn keys_of<R: Threads + Wait + Sync>(
    rt: &R,
    alloc: Global,
    regex: &Regex,
    keys: &mut Vec<(usize, usize)>,
) -> Result<(), Fail> {
    let line: &[u8] = b"ab=12 c=";
    for rows in &scan(&rt, alloc, &regex, &[line], 1, &Open)? {
        for row in rows {
            if let [_, _, Some(start), Some(end), ..] = row.slots.as_slice() {
                keys.push((start.get(), end.get()))?;
            }
        }
    }
    Ok(())
}

#[test]
fn all_matches_with_groups(rt: HostRuntime) -> Result<(), Fail> {
    let alloc = rt.alloc();
    let regex = Regex::new(alloc, "([a-z]+)=([0-9]+)?")?;
    let mut keys = Vec::new(alloc);
    keys_of(&rt, alloc, &regex, &mut keys)?;
    assert_eq!(rt; keys.as_slice(), [(0, 2), (6, 7)].as_slice());
    Ok(())
}

#[test]
fn the_program_as_a_function(rt: HostRuntime) -> Result<(), Fail> {
    let alloc = rt.alloc();
    let mut words = Vec::new(alloc);
    words.push(String::from_str(alloc, "scan")?)?;
    let mut source = BytesSure::new(Vec::from_slice(alloc, b"a(b)?\n\nxab\na\n")?);
    let mut sink = KeptSure::new(alloc);
    let status = run(&rt, alloc, &words, &mut source, &mut sink, &Open);
    assert_eq!(rt; status, 0);
    assert!(rt; sink.held() == Some(b"1:0:1..3 1=2..3\n2:0:0..1 1=-\n".as_slice()));
    Ok(())
}
