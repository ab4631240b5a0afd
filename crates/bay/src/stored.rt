// A stored run over each kind of cache: fills it, takes from it, offers more than it holds, and clears it.
use caches::{Answered, Cache, Found, Keeper, Key, NoCache, Offer, Pair, Question, Ring, recall};
use std::io;
use std::io::Write;
use values::Number;

// The two tools whose runs are offered by turns, as numbers of their names.
const ONE: Number = 2;

const OTHER: Number = 3;

// The key of a tool's run: version 1, and a command under the number 9.
fn key(tool: Number) -> Key {
    Key::Tool {
        name: tool,
        version: 1,
        command: 9,
    }
}

// The tool whose run has this product.
fn tool_of(product: Number) -> Number {
    if product % 2 == 0 { ONE } else { OTHER }
}

// What a run asked: the text of a function, found under the product's own number, and that of another, not found.
fn answers(product: Number) -> [Answered; 2] {
    let found = Answered {
        question: Question::Function(4),
        found: Found::Text(Some(product)),
    };
    let missing = Answered {
        question: Question::Function(5),
        found: Found::Text(None),
    };
    [found, missing]
}

// Tells what was found.
fn tell_found(rt: &HostRuntime, j: usize, found: Found) -> io::Result<()> {
    match found {
        Found::Text(Some(text)) => println!(rt; "    question {j} found text {text}"),
        Found::Text(None) => println!(rt; "    question {j} found no function"),
        _ => println!(rt; "    question {j} found something else"),
    }
}

// Tells the questions of the k-th entry of a tool.
fn tell_entry<C: Cache>(rt: &HostRuntime, cache: &C, tool: Number, k: u16) -> io::Result<()> {
    println!(rt; "  tool {tool}, entry {k}")?;
    for (j, answered) in recall(cache, key(tool), k).iter().enumerate() {
        tell_found(rt, j, answered.found)?;
    }
    Ok(())
}

// Tells the entries of a tool.
fn tell_entries<C: Cache>(rt: &HostRuntime, cache: &C, tool: Number) -> io::Result<()> {
    let count = cache.count(key(tool));
    println!(rt; "  entries of tool {tool}: {count}")?;
    for k in 0..count {
        tell_entry(rt, cache, tool, k)?;
    }
    Ok(())
}

// How many entries are held of both tools.
fn tell_counts<C: Cache>(rt: &HostRuntime, cache: &C) -> io::Result<()> {
    let one = cache.count(key(ONE));
    let other = cache.count(key(OTHER));
    println!(rt; "  holds {one} of tool {ONE} and {other} of tool {OTHER}")
}

// Offers entries with products from one number up to another, and tells how many are kept.
fn offer<C: Cache>(rt: &HostRuntime, cache: &mut C, from: Number, to: Number) -> io::Result<()> {
    let mut kept: u16 = 0;
    for product in from..to {
        let offered = Offer {
            key: key(tool_of(product)),
            product,
            answers: &answers(product),
        };
        if cache.add(offered) {
            kept = kept.wrapping_add(1);
        }
    }
    println!(rt; "  offered products {from} up to {to}, kept {kept}")
}

// Takes an entry of a tool, and tells its product.
fn take<C: Cache>(rt: &HostRuntime, cache: &mut C, tool: Number, k: u16) -> io::Result<()> {
    match cache.take(key(tool), k) {
        Some(product) => println!(rt; "  took entry {k} of tool {tool}: product {product}"),
        None => println!(rt; "  tool {tool} has no entry {k} to take"),
    }
}

// Fills a cache, takes from it, offers more than it holds and clears it, and tells every step.
fn tell_cache<C: Cache>(rt: &HostRuntime, kind: &str, cache: &mut C) -> io::Result<()> {
    println!(rt; "{kind}")?;
    offer(rt, cache, 100, 103)?;
    tell_entries(rt, cache, ONE)?;
    tell_entries(rt, cache, OTHER)?;
    take(rt, cache, OTHER, 0)?;
    tell_counts(rt, cache)?;
    offer(rt, cache, 103, 121)?;
    let last = cache.count(key(ONE)).max(1) - 1;
    take(rt, cache, ONE, last)?;
    tell_counts(rt, cache)?;
    offer(rt, cache, 121, 251)?;
    tell_counts(rt, cache)?;
    cache.clear();
    println!(rt; "  cleared")?;
    tell_counts(rt, cache)
}

// The stored run at every kind of cache.
pub(crate) fn tell_caches(rt: &HostRuntime) -> io::Result<()> {
    let heap = rt.alloc();
    tell_cache(rt, "none", &mut NoCache)?;
    tell_cache(rt, "keeper", &mut Keeper::new(heap)?)?;
    tell_cache(rt, "ring", &mut Ring::new(heap)?)?;
    let mut pair = Pair::new(Ring::new(heap)?, Keeper::new(heap)?);
    tell_cache(rt, "pair of ring and keeper", &mut pair)?;
    let near = Pair::new(Ring::new(heap)?, Keeper::new(heap)?);
    let far = Pair::new(Keeper::new(heap)?, Ring::new(heap)?);
    tell_cache(
        rt,
        "pair of two pairs: ring and keeper, keeper and ring",
        &mut Pair::new(near, far),
    )
}
