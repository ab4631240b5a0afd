// Rows of keys in order, for every kind of key that has a total order.
#![tactic(auto)]

ghost use Rattle.std.specs.Prelude.{◌≡◌, ◌+◌, ◌<◌, ◌≤◌, length, take, drop, is_some, if◌then◌else◌, vec_len, vec_capacity, MatchResult};
ghost use Rattle.std.specs.Cmp.{IsTotalOrder};
ghost use Rattle.ordered.specs.Climbing.{Climbs, Found, Stands, Inserts, Room};
ghost use Rattle.ordered.specs.Names.{name_order};

// Finds a key by halving: Ok with the place where it stands, or Err with the place where it belongs.
pub fn find<K: Ord>(keys: &[K], key: &K) -> Result<usize, usize>
    ensures bound { MatchResult result (λ i. i < length keys.now) (λ i. i ≤ length keys.now) }
    ensures found { (o : IsTotalOrder K.Ord.cmp) → Climbs K.Ord.cmp keys.now → Found K.Ord.cmp keys.now key.now result }
{
    keys.binary_search(key)
}

// The place of the first key that is not less than the given one: so many are less.
pub fn place<K: Ord>(keys: &[K], key: &K) -> usize
    ensures bound { result ≤ length keys.now }
    ensures stands { (o : IsTotalOrder K.Ord.cmp) → Climbs K.Ord.cmp keys.now → Stands K.Ord.cmp keys.now key.now result }
{
    keys.partition_point(|k| k < key)
}

// Puts a key where it belongs, and says where. None where it stands there already, or where the memory taken is full.
pub fn insert<K: Ord + Drop>(keys: &mut Vec<K>, key: K) -> Option<usize>
    ensures inserted { (o : IsTotalOrder K.Ord.cmp) → Climbs K.Ord.cmp keys.old.items → Inserts K.Ord.cmp (Room (vec_len keys.old) (vec_capacity keys.old)) keys.old.items key result keys.new.items }
    ensures len { vec_len keys.new ≡ vec_len keys.old + (if is_some result then 1 else 0) }
    ensures capacity { vec_capacity keys.new ≡ vec_capacity keys.old }
{
    if keys.len() >= keys.capacity() {
        return None;
    }
    let Err(i) = find(keys, &key) else {
        return None;
    };
    let _ = keys.insert(i, key);
    Some(i)
}

// The same in a lent slice, of which the first `len` are in use; None also where all are in use.
// It stays beside `insert`, since the memory is the caller's: a lent slice has a length beside it and moves its keys by turning them,
// and a trait over both would be longer than the two lines that differ.
pub fn insert_lent<K: Ord + Copy>(keys: &mut [K], len: usize, key: K) -> Option<usize>
    ensures inserted { (o : IsTotalOrder K.Ord.cmp) → Climbs K.Ord.cmp (take len keys.old) → Inserts K.Ord.cmp (Room len (length keys.old)) (take len keys.old) key result (take (len + (if is_some result then 1 else 0)) keys.new) }
    ensures rest { drop (len + 1) keys.new ≡ drop (len + 1) keys.old }
{
    if len >= keys.len() {
        return None;
    }
    let Err(i) = find(&keys[..len], &key) else {
        return None;
    };
    keys[len] = key;
    keys[i..=len].rotate_right(1);
    Some(i)
}

// Finds a name among names that are lent. It stays beside `find`, since it says which order that is, and asks for no proof that it is total.
pub fn find_name<'a>(names: &[&'a [u8]], name: &&'a [u8]) -> Result<usize, usize>
    ensures { Climbs name_order names.now → Found name_order names.now name.now result }
{
    find(names, name)
}
