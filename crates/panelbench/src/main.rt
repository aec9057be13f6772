// Opening the largest panel against copying its bytes one by one. Without an
// argument it only opens the panel; with `--time` it prints what both take, and with
// a word behind it, `--time --admission`, also what admitting panels of four sizes
// takes against asking each of their records and name bytes once.
#![tactic(auto)]

use admission::admit;
use anyhow::bail;
use asking::ask_all;
use packed::Packed;
use samples::{LARGEST, panel_of};
use std::alloc::AllocError;
use std::env;
use std::time::{Duration, Instant};

mod asking;

const RUNS: usize = 20;

fn copy_by_bytes(out: &mut Vec<u8>, bytes: &[u8]) -> Result<(), AllocError> {
    for b in bytes {
        out.push(*b)?;
    }
    Ok(())
}

// The least that some runs take, of those that succeed.
fn least<F: FnMut() -> anyhow::Result<bool>>(
    rt: &HostRuntime,
    mut run: F,
) -> anyhow::Result<Duration>
    requires { F.IsAlwaysCallable run }
{
    let mut least = Duration::MAX;
    for _ in 0..RUNS {
        let start = Instant::now(rt)?;
        let succeeded = run()?;
        let taken = start.elapsed(rt)?;
        if succeeded {
            least = least.min(taken);
        }
    }
    Ok(least)
}

// The least that copying takes, into memory that is there.
fn time_copy(rt: &HostRuntime, bytes: &[u8]) -> anyhow::Result<Duration> {
    let mut out = Vec::with_capacity(rt.alloc(), bytes.len())?;
    least(rt, || {
        out.clear();
        copy_by_bytes(&mut out, bytes)?;
        Ok(out.len() == bytes.len())
    })
}

// A panel of `n` names and values: whether it is admitted, and what that takes.
fn run_admission(rt: &HostRuntime, n: u16) -> anyhow::Result<()> {
    let bytes = panel_of(rt.alloc(), n)?;
    let Ok(packed) = Packed::open(bytes.as_slice()) else {
        bail!("the panel does not open");
    };
    let admitted = admit(&packed).is_ok();
    println!(rt; "panel of {n}: admitted {admitted}")?;
    let admitting = least(rt, || Ok(admit(&packed).is_ok()))?;
    let mut sum = 0;
    let asking = least(rt, || {
        sum = ask_all(&packed);
        Ok(true)
    })?;
    println!(rt; "admit {admitting:?}, ask once {asking:?} (sum {sum})")?;
    Ok(())
}

fn run(rt: &HostRuntime) -> anyhow::Result<()> {
    let bytes = panel_of(rt.alloc(), LARGEST)?;
    let length = bytes.len();
    let opened = Packed::open(bytes.as_slice()).is_ok();
    println!(rt; "largest panel: {length} bytes, opened {opened}")?;
    let words = env::args(rt)?.count();
    if words > 1 {
        let open = least(rt, || Ok(Packed::open(bytes.as_slice()).is_ok()))?;
        let copy = time_copy(rt, bytes.as_slice())?;
        println!(rt; "open {open:?}, copy byte by byte {copy:?}")?;
    }
    if words > 2 {
        for n in [256, 512, 1024, LARGEST] {
            run_admission(rt, n)?;
        }
    }
    Ok(())
}

fn main(rt: HostRuntime) -> anyhow::Result<()> {
    run(&rt)
}
