ghost use Rattle.std.specs.Prelude.{◌≡◌, length};

// An entry point works on a copy, and copies back only when done: so a refusal changes nothing.
pub fn copy_in(t: &[u64], a: &mut [u64; 641])
    requires { length t.now ≡ 641 }
    ensures { a.new ≡ t.now }
{
    a.copy_from_slice(t);
}

pub fn copy_out(a: &[u64; 641], t: &mut [u64])
    requires { length t.old ≡ 641 }
    ensures { t.new ≡ a.now }
{
    t.copy_from_slice(a);
}
