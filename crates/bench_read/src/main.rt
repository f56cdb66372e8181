// bench_read LIST RECORD ROUNDS: reads one record many times.
//
// It writes the letters that a round reads and a checksum to standard output, and the nanoseconds that all rounds took to standard
// error. Where a word is missing or wrong, or a file is refused, it ends with status 1.
#![tactic(auto)]

use anyhow::anyhow;
use fields::fault::Fault;
use name_list::list::NameList;
use records::read::{MOST_LETTERS, read_record};
use std::time::Instant;
use std::{env, fs};

fn load_names(path: &str, rt: &HostRuntime) -> anyhow::Result<NameList> {
    let bytes = fs::read(rt, path)?;
    let mut names = NameList::new(rt.alloc());
    names
        .load(&bytes, rt.alloc())
        .map_err(|_| anyhow!("the name list is refused"))?;
    Ok(names)
}

// Writes over the code at a place, so that the next round must write it again.
fn spoil(codes: &mut [u8], place: usize) {
    if let Some(code) = codes.get_mut(place) {
        *code = 255;
    }
}

fn code_at(codes: &[u8], place: usize) -> u64 {
    codes.get(place).map_or(0, |code| u64::from(*code))
}

// Reads the record in each round, and answers the letters that the last one read, and a sum that takes in from each round how many
// letters it read, and the code at the round's own place.
fn read_rounds(
    names: &NameList,
    record: &[u8],
    rounds: usize,
    codes: &mut [u8],
) -> Result<(usize, u64), Fault> {
    let mut count = 0;
    let mut sum = 0u64;
    for round in 0..rounds {
        spoil(codes, round);
        count = read_record(names, record, codes)?;
        sum = sum
            .wrapping_add(count as u64)
            .wrapping_add(code_at(codes, round));
    }
    Ok((count, sum))
}

fn sum_codes(codes: &[u8]) -> u64 {
    codes
        .iter()
        .fold(0, |sum: u64, code| sum.wrapping_add(u64::from(*code)))
}

fn measure(list: &str, record: &str, rounds: usize, rt: &HostRuntime) -> anyhow::Result<()> {
    let names = load_names(list, rt)?;
    let record = fs::read(rt, record)?;
    let mut codes = vec![in rt.alloc(); 0u8; MOST_LETTERS]?;
    let start = Instant::now(rt)?;
    let outcome = read_rounds(&names, &record, rounds, &mut codes);
    let nanoseconds = start.elapsed(rt)?.as_nanos();
    let (count, sum) = outcome.map_err(|_| anyhow!("the record is refused"))?;
    codes.truncate(count);
    let checksum = sum.wrapping_add(sum_codes(&codes));
    println!(rt; "{count} letters, checksum {checksum}")?;
    eprintln!(rt; "{nanoseconds}")?;
    Ok(())
}

fn run(rt: &HostRuntime) -> anyhow::Result<()> {
    let words: Vec<String> = env::args(rt)?.skip(1).collect(rt.alloc())?;
    let [list, record, rounds] = words.as_slice() else {
        return Err(anyhow!("expected LIST RECORD ROUNDS"));
    };
    measure(list.as_str(), record.as_str(), rounds.parse()?, rt)
}

fn main(rt: HostRuntime) -> anyhow::Result<()> {
    run(&rt)
}
