// Numbers copied between lent lists and values, and what a field of the record can hold. The lists come as C lends them, of a length that the caller has tested.
ghost use Rattle.std.specs.Prelude.{◌≡◌, true, map, ℕ, ◌<◌, length, get_or};
ghost use Rattle.card.specs.Paper.{out};
ghost use Rattle.search.specs.First.{numbers};
ghost use Rattle.crosspoint.specs.Paper.{holdable};

use card::Out;

// The 32 numbers of a list.
pub fn numbers_in(list: &[u32]) -> [u32; 32]
    requires { length list.now ≡ 32 }
    ensures { result ≡ list.now }
{
    list.try_into().unwrap()
}

// The 32 outputs of a list.
pub fn outputs_in(list: &[u16]) -> [Out; 32]
    requires { length list.now ≡ 32 }
    ensures { result ≡ map out list.now }
{
    let mut copy = [Out(0); 32];
    put_each(&mut copy, list, Out);
    copy
}

// 1,024 heads or counts, from a list whose numbers the field can hold.
pub fn take_counts(field: &mut [u16], list: &[u32])
    requires { (length field.old ≡ 1024) × (length list.now ≡ 1024) × (holdable list.now ≡ true) }
    ensures { field.new ≡ list.now }
{
    put_each(
        field,
        list,
        |number| -> u16
            requires { number < 65536 }
        { number as u16 },
    );
}

// Whether 1,024 numbers are each one that a field of heads or counts can hold. `all` would stop at the first that is not, so it looks at one after
// another, where this looks at several at once: a slot on an idle card took 0.7 µs more with it.
pub fn holdable(list: &[u32]) -> bool
    requires { length list.now ≡ 1024 }
    ensures { result ≡ holdable list.now }
{
    let mut ok = true;
    for number in list.iter() {
        ok = card::also(ok, *number < 65536);
    }
    ok
}

// 32 outputs, in a list of their length.
pub fn put_outputs(list: &mut [u16], given: [Out; 32])
    requires { length list.old ≡ 32 }
    ensures { list.new ≡ numbers given }
{
    put_each(list, &given, |output| output.0);
}

// 32 outputs as wider numbers, in a list of their length. The element decides the conversion, so one function for both would be longer.
pub fn put_wide_outputs(list: &mut [u32], given: [Out; 32])
    requires { length list.old ≡ 32 }
    ensures { list.new ≡ numbers given }
{
    put_each(list, &given, |output| u32::from(output.0));
}

// Heads or counts, in a list of their length.
pub fn put_counts(list: &mut [u32], given: &[u16])
    requires { length list.old ≡ length given.now }
    ensures { list.new ≡ given.now }
{
    put_each(list, given, u32::from);
}

// What a conversion makes of each element, in a list of their length. The places are counted: behind a zip of `iter_mut` a proof knows no element.
fn put_each<A: Copy, B: Copy, F: Fn(A) -> B>(list: &mut [B], given: &[A], convert: F)
    requires long { length list.old ≡ length given.now }
    requires callable { (k : ℕ) (d : A) → k < length given.now → F.pre convert (get_or given.now k d) }
    ensures length { length list.new ≡ length list.old }
    ensures each { (k : ℕ) (d : A) (e : B) → k < length given.now → F.post convert (get_or given.now k d) (get_or list.new k e) }
{
    for (k, x) in given.iter().enumerate() {
        list[k] = convert(*x);
    }
}
