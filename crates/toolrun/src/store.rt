// The answers so far of a tool's run: all memory is taken when it is made.
ghost use Rattle.std.specs.Prelude.{◌≡◌, ◌≤◌, true, vec_len, vec_capacity};
ghost use Rattle.toolrun.specs.Told.{all_within, told_bytes};

use tools::Span;

// The texts of answers stand in a pool, one behind the other: a text of its own for each of 16 answers would take four times the memory
// that a run may have. There is no `impl Model`, under which the private methods could not speak of the pool.
#[derive(Drop)]
pub struct ToolRun {
    pub(crate) pool: Vec<u8>,
    pub(crate) told: Vec<Option<Span>>,
    ghost room: { (4096 ≤ vec_capacity pool) × (16 ≤ vec_capacity told) },
    ghost few: { (vec_len pool ≤ 4096) × (vec_len told ≤ 16) },
    ghost within: { all_within (vec_len pool) told.items ≡ true },
    ghost filled: { told_bytes told.items ≡ vec_len pool },
}
