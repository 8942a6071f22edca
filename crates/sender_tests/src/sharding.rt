//! Catalogs whose sharding is sound, as text, and the certificates of that.

use std::alloc::{AllocError, Global};

/// A table whose rows below 100 go to one subscriber, and the others to another.
pub(crate) const HALVES: &str = "CREATE TABLE t (id integer, region text, PRIMARY KEY (id));
ALTER TABLE t REPLICA IDENTITY FULL;
CREATE PUBLICATION pa FOR TABLE t WHERE (id < 100);
CREATE PUBLICATION pb FOR TABLE t WHERE (id >= 100);
CREATE SUBSCRIPTION s0 CONNECTION '' PUBLICATION pa;
CREATE SUBSCRIPTION s1 CONNECTION '' PUBLICATION pb;";

/// That its sharding is sound.
pub(crate) const HALVES_SPLIT: &str = "s 0 s 1 e 0 o 0 n 1 s 1 o 1 e 0 n 1 n 0";

/// The filter of one of 32 shards, each of 1,000 keys, but for the ends.
fn put_filter(text: &mut String, shard: usize) -> Result<(), AllocError> {
    let low = shard.saturating_mul(1_000);
    let high = low.saturating_add(1_000);
    match shard {
        0 => write!(text, "id < {high}"),
        31 => write!(text, "NOT id < {low}"),
        _ => write!(text, "NOT id < {low} AND id < {high}"),
    }
}

/// A table whose keys are cut in 32 shards.
pub(crate) fn shards(alloc: Global) -> Result<String, AllocError> {
    let mut text = String::from_str(
        alloc,
        "CREATE TABLE t (id integer, region text, PRIMARY KEY (id));",
    )?;
    for shard in 0..32 {
        write!(text, "CREATE PUBLICATION p{shard} FOR TABLE t WHERE (")?;
        put_filter(&mut text, shard)?;
        text.push_str(");")?;
    }
    for shard in 0..32 {
        write!(
            text,
            "CREATE SUBSCRIPTION s{shard} CONNECTION '' PUBLICATION p{shard};"
        )?;
    }
    Ok(text)
}

/// That a key below the end of this shard, and not of one before it, has no other owner: it is below the ends of all
/// that come later, and is never null.
fn put_owner(text: &mut String, shard: usize) -> Result<(), AllocError> {
    for later in shard.saturating_add(1)..31 {
        write!(text, "s {later} ")?;
    }
    write!(text, "o {shard}")?;
    for later in 0..30usize.saturating_sub(shard) {
        write!(text, " e 0 n {}", 30usize.saturating_sub(later))?;
    }
    Ok(())
}

/// That its sharding is sound: the ends of the shards are asked for in their order.
pub(crate) fn shards_split(alloc: Global) -> Result<String, AllocError> {
    let mut text = String::new(alloc);
    for shard in 0..31 {
        write!(text, "s {shard} ")?;
        put_owner(&mut text, shard)?;
        text.push_str(" ")?;
    }
    text.push_str("o 31")?;
    for shard in 0..31usize {
        write!(text, " n {}", 30usize.saturating_sub(shard))?;
    }
    Ok(text)
}
