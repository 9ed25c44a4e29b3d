//! Which operator serves an entity.

ghost use Rattle.std.specs.Prelude.{◌≡◌, ◌≤◌, ◌<◌, ◌+◌, ◌*◌, ◌^◌};
ghost use Rattle.operator_graph.specs.Routing as spec;

use sf_value::Ref;

/// The hash of a key's bytes, in 32 bits.
fn hash_of(key: &[u8]) -> u32
    ensures { result ≡ spec.hash_of key.now }
{
    let mut hash: u32 = 0;
    for byte in key {
        hash = ((hash as u64 * 31 + *byte as u64) % (1 << 32)) as u32;
    }
    hash
}

/// The partition of a key among so many. It takes no memory.
pub fn partition(key: &[u8], parts: u32) -> u32
    requires { 1 ≤ parts }
    ensures { result ≡ spec.partition key.now parts }
{
    hash_of(key) % parts
}

/// The number of the operator of an entity: the operators of a class stand one after another, one for
/// each partition. It takes no memory.
pub fn operator_of(at: &Ref, parts: u32) -> u32
    requires parts { 1 ≤ parts }
    requires room { (at.now.class + 1) * parts < 2 ^ 32 }
    ensures { result ≡ spec.operator_of at.now parts }
{
    at.class * parts + partition(at.key.as_str().as_bytes(), parts)
}
