//! Buckets of hashes, and the chain of the hashes in each.

ghost use Rattle.std.specs.Prelude.{◌≡◌, ◌<◌, length, OnOk};
ghost use Rattle.cla_index.specs.Chains.{bucket_of, hashes_of, AreChained, IsIndex};

use cla_num::Memory;

/// A hash, and how many hashes there are up to the one before it in its bucket: 0 where there is none.
#[derive(Clone, Copy)]
pub(crate) struct Link {
    pub(crate) hash: u32,
    pub(crate) earlier: u32,
}

/// The bucket that a hash falls in.
pub(crate) fn bucket(hash: u32, buckets: usize) -> usize
    requires { 0 < buckets }
    ensures is { result ≡ bucket_of buckets hash }
    ensures within { result < buckets }
{
    hash as usize % buckets
}

/// Chains the hashes anew in these buckets.
pub(crate) fn chain(latest: &mut [u32], links: &mut [Link])
    requires some { 0 < length latest.old }
    requires few { length links.old < 4294967296 }
    ensures buckets { length latest.new ≡ length latest.old }
    ensures hashes { hashes_of links.new ≡ hashes_of links.old }
    ensures chained { AreChained (length latest.old) (length links.old) latest.new links.new }
{
    latest.fill(0);
    for k in 0..links.len() {
        let hash = links[k].hash;
        let bucket = bucket(hash, latest.len());
        let earlier = latest[bucket];
        links[k] = Link { hash, earlier };
        latest[bucket] = k as u32 + 1;
    }
}

/// Makes more buckets where there are no more of them than hashes. Where memory is wanting, all stays as it was.
pub(crate) fn make_room(latest: &mut Vec<u32>, links: &mut Vec<Link>) -> Result<(), Memory>
    requires few { length links.old.items < 4294967295 }
    requires index { IsIndex latest.old.items links.old.items }
    ensures index { IsIndex latest.new.items links.new.items }
    ensures hashes { hashes_of links.new.items ≡ hashes_of links.old.items }
    ensures room { OnOk result (length links.new.items < length latest.new.items) }
{
    if links.len() < latest.len() {
        return Ok(());
    }
    latest.resize(2 * links.len() + 8, 0)?;
    chain(latest, links);
    Ok(())
}
