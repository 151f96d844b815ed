// Writes roots as the compiled library finds them: a line with a number, its root and the rounds of the search, with a space between them.
#![tactic(auto)]

ghost use Rattle.std.specs.Prelude.{◌<◌, ◌≤◌};

// A line that cannot be written is left out.
fn line(rt: &impl Print, x: u64) {
    let root::Found { root, rounds } = root::find(x);
    let _ = println!(rt; "{x} {root} {rounds}");
}

// The last number before those with root q, and the first and the last of them.
fn edges(rt: &impl Print, q: u64)
    requires { (0 < q) × (q < 4294967296) }
{
    line(rt, q * q - 1);
    line(rt, q * q);
    line(rt, q * q + 2 * q);
}

// The least and the greatest root with as many digits as `least`, and one of those from the least up.
fn edges_of_length(rt: &impl Print, least: u64)
    requires { (0 < least) × (least ≤ 2147483648) }
{
    edges(rt, least);
    edges(rt, least + 2654435769 % least);
    edges(rt, 2 * least - 1);
}

fn all_edges(rt: &impl Print) {
    for k in 0u32..32 {
        edges_of_length(rt, 1 << k);
    }
}

// Numbers that look random: the first of at most 64 digits, each next one of at most one digit fewer.
fn scattered(rt: &impl Print) {
    let mut x: u64 = 0;
    for k in 0u64..64 {
        x = x.wrapping_add(11400714819323198485);
        line(rt, x >> k);
    }
}

fn main(rt: HostRuntime) {
    line(&rt, 0);
    all_edges(&rt);
    scattered(&rt);
}
