// Writes the table of sines, as the compiled library gives it: a line with k, a space and the sine of k quarter degrees for each k.
#![tactic(auto)]

ghost use Rattle.std.specs.Prelude.{◌≤◌};

fn main(rt: HostRuntime) {
    for k in 0..361 {
        line(&rt, k);
    }
}

// A line that cannot be written is left out.
fn line(rt: &impl Print, k: usize)
    requires { k ≤ 360 }
{
    let s = sine::sine(k);
    let _ = println!(rt; "{k} {s}");
}
