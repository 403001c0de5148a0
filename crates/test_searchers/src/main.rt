//! The searchers beside one another: the rolling hash beside the plain searcher, on small cases and on many drawn books and
//! texts; then the masks over every kind of vectors, with every mask count, beside both; then the example of docs/TEDDY.md, and
//! the laws. The arguments, if there are any, name the parts that are run.

#![tactic(auto)]

mod book;
mod draw;
mod example;
mod masks;
mod numbers;
mod rolling;

use anyhow::ensure;
use rabinkarp::hash_rolls;
use rules::rules_hold;
use std::env;
use teddy::{lines_hold, tables_hold};

fn main(rt: HostRuntime) -> anyhow::Result<()> {
    let names: Vec<String> = env::args(&rt)?.skip(1).collect(rt.alloc())?;
    let is_wanted = |part: &str| names.is_empty() || names.iter().any(|name| name.as_str() == part);
    if is_wanted("rolling") {
        rolling::run(&rt)?;
    }
    if is_wanted("masks") {
        masks::run(&rt)?;
    }
    if is_wanted("example") {
        example::run(&rt)?;
    }
    // Laws of the definitions, which hold of every book and text: each is called once.
    ensure!(rules_hold() && tables_hold() && lines_hold());
    ensure!(hash_rolls(b"2 DC-40-R", 2, 4));
    Ok(())
}
