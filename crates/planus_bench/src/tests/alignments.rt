ghost use Rattle.std.specs.Prelude.{◌+◌, ◌^◌, ◌≤◌};
ghost use Rattle.planus_back.specs.Promises.{IsPowerOfTwo};

// One less than an alignment from 1 to 16.
pub fn mask_of(alignment: usize) -> usize
    ensures power { IsPowerOfTwo (result + 1) }
    ensures bound { result + 1 ≤ 2 ^ 30 }
{
    match alignment {
        1 => 0,
        2 => 1,
        4 => 3,
        8 => 7,
        _ => 15,
    }
}
