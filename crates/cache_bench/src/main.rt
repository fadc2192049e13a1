// Looks pages up in the proved caches, as bench/cache does in the original's.
// Each three arguments, FAMILY PAGES COUNT, are a run of COUNT look-ups over so many pages. Pages that all fit are inserted first and
// then only looked up, as a warm cache is; others are inserted at each miss. A run is told in a line with a sum over all answers,
// by which the two programs are compared.
#![tactic(auto)]

ghost use Rattle.std.specs.Prelude.{◌<◌};

use cache::atc030::Atc030;
use cache::atc040::Atc040;
use cache::{CachePair, atc030, atc040};
use std::io;
use std::rt::Env;
use vectors::Cursor;

// The numbers that the pages come from: x = (x * 1103515245 + 12345) mod 2^31.
fn next_x(x: u32) -> u32 {
    ((x as u64 * 1103515245 + 12345) % 2147483648) as u32
}

// The page of a number.
fn page_of(x: u32, pages: u32) -> u32
    requires { 0 < pages }
{
    x / 65536 % pages
}

// The sum with one more answer.
fn with_answer(sum: u64, answer: u64) -> u64 {
    std::num::wrapping_add_u64(sum, answer) % 1000000007
}

// A hit's base, or 5 for a miss.
fn answer_of(hit: Option<u64>) -> u64 {
    match hit {
        Some(base) => base,
        None => 5,
    }
}

// One look-up in the 68030 cache, with an insert at a miss. Each page's base is its number.
fn access_030(page: u32, c: &mut Atc030) -> u64 {
    match atc030::look(c, 1, page, 12, false, true) {
        Some(base) => base,
        None => {
            atc030::insert(c, 1, page, 12, page, false);
            5
        }
    }
}

// A run over a 68030 cache that is empty at first.
fn cold_030(pages: u32, count: u32) -> u64
    requires { 0 < pages }
{
    let empty = CachePair::empty();
    let mut c = empty.c030;
    let mut x = 12345;
    let mut sum = 0;
    for _ in 0..count {
        x = next_x(x);
        let page = page_of(x, pages);
        let answer = access_030(page, &mut c);
        sum = with_answer(sum, answer);
    }
    sum
}

// Inserts every page.
fn fill_030(pages: u32, c: &mut Atc030) {
    for page in 0..pages {
        atc030::insert(c, 1, page, 12, page, false);
    }
}

// A run over a 68030 cache that has every page.
fn warm_030(pages: u32, count: u32) -> u64
    requires { 0 < pages }
{
    let empty = CachePair::empty();
    let mut c = empty.c030;
    fill_030(pages, &mut c);
    let mut x = 12345;
    let mut sum = 0;
    for _ in 0..count {
        x = next_x(x);
        let page = page_of(x, pages);
        let hit = atc030::look(&mut c, 1, page, 12, false, true);
        sum = with_answer(sum, answer_of(hit));
    }
    sum
}

// One look-up in the 68040 cache, with an insert at a miss.
fn access_040(page: u32, c: &mut Atc040) -> u64 {
    match atc040::look_040(c, page, false, false) {
        Some(base) => base,
        None => {
            atc040::insert_040(c, page, false, page, false, false);
            5
        }
    }
}

// A run over a 68040 cache that is empty at first.
fn cold_040(pages: u32, count: u32) -> u64
    requires { 0 < pages }
{
    let empty = CachePair::empty();
    let mut c = empty.c040;
    let mut x = 12345;
    let mut sum = 0;
    for _ in 0..count {
        x = next_x(x);
        let page = page_of(x, pages);
        let answer = access_040(page, &mut c);
        sum = with_answer(sum, answer);
    }
    sum
}

// Inserts every page.
fn fill_040(pages: u32, c: &mut Atc040) {
    for page in 0..pages {
        atc040::insert_040(c, page, false, page, false, false);
    }
}

// A run over a 68040 cache that has every page.
fn warm_040(pages: u32, count: u32) -> u64
    requires { 0 < pages }
{
    let empty = CachePair::empty();
    let mut c = empty.c040;
    fill_040(pages, &mut c);
    let mut x = 12345;
    let mut sum = 0;
    for _ in 0..count {
        x = next_x(x);
        let page = page_of(x, pages);
        let hit = atc040::look_040(&c, page, false, false);
        sum = with_answer(sum, answer_of(hit));
    }
    sum
}

// The sum of a run.
fn sum_of(family: u32, pages: u32, count: u32) -> u64
    requires { 0 < pages }
{
    if family == 30 && pages <= 22 {
        return warm_030(pages, count);
    }
    if family == 30 {
        return cold_030(pages, count);
    }
    if pages <= 64 {
        return warm_040(pages, count);
    }
    cold_040(pages, count)
}

// Argument i as a number, and 0 where it is missing or none.
fn argument<E: Env>(rt: &E, i: usize) -> u32 {
    let mut text = [10u8; 16];
    let _ = rt.arg(i, &mut text);
    match vectors::read_number(&text, Cursor { at: 0 }) {
        Ok(Some(number)) => number.value,
        Ok(None) | Err(_) => 0,
    }
}

// A run's line.
fn tell<P: Print>(rt: &P, family: u32, pages: u32, count: u32, sum: u64) -> io::Result<()> {
    println!(rt; "680{family} cache, {pages} pages, {count} look-ups: sum {sum}")
}

// The run of the three arguments from i on, and whether there are three.
fn one_run<S: Env + Print>(rt: &S, i: usize) -> io::Result<bool>
    requires { i < 1000 }
{
    let family = argument(rt, i);
    let pages = argument(rt, i + 1);
    let count = argument(rt, i + 2);
    if pages == 0 {
        return Ok(false);
    }
    tell(rt, family, pages, count, sum_of(family, pages, count))?;
    Ok(true)
}

fn main(rt: HostRuntime) -> io::Result<()> {
    for run in 0..33 {
        if !one_run(&rt, 1 + 3 * run)? {
            break;
        }
    }
    Ok(())
}
