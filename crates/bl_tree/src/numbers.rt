//! Lists of nodes' numbers.
ghost use Rattle.std.specs.Prelude.{◌≡◌, ◌≤◌, [], length, vec_capacity};

/// Appends numbers to an empty list that has room for them. Takes no memory.
pub fn copy_into(ids: &[u32], copy: &mut Vec<u32>)
    requires empty { copy.old.items ≡ [] }
    requires room { length ids.now ≤ vec_capacity copy.old }
    ensures { copy.new.items ≡ ids.now }
{
    for i in 0..ids.len() {
        copy.push_reserved(ids[i]);
    }
}
