// Rehearses each table of a list: a name, a space and the table's bytes in hexadecimal to a line.
#![tactic(auto)]

ghost use Rattle.std.specs.Prelude.{◌<◌, IfSome};

use anyhow::anyhow;
use report::rehearse;
use std::alloc::Global;

// The value of a hexadecimal digit. `to_digit` takes capitals too, which the lists have none of.
fn digit(b: u8) -> Option<u8>
    ensures { IfSome result (λ d. d < 16) }
{
    match b {
        b'0'..=b'9' => Some(b - b'0'),
        b'a'..=b'f' => Some(b - b'a' + 10),
        _ => None,
    }
}

// The bytes that pairs of hexadecimal digits stand for.
fn unhex(heap: Global, text: &[u8]) -> anyhow::Result<Vec<u8>> {
    let mut bytes = Vec::new(heap);
    for pair in text.chunks(2) {
        let [high, low] = pair else {
            return Err(anyhow!("half a byte"));
        };
        let (Some(high), Some(low)) = (digit(*high), digit(*low)) else {
            return Err(anyhow!("no hexadecimal digit"));
        };
        bytes.push(16 * high + low)?;
    }
    Ok(bytes)
}

fn try_line(rt: &HostRuntime, line: &str) -> anyhow::Result<()> {
    let Some((name, table)) = line.split_once(' ') else {
        return Err(anyhow!("a name and a table are wanted"));
    };
    let bytes = unhex(rt.alloc(), table.as_bytes())?;
    let report = rehearse(&bytes);
    println!(rt; "{name}: {report}")?;
    Ok(())
}

fn main(rt: HostRuntime) -> anyhow::Result<()> {
    for line in rt.lines(rt.alloc()) {
        let line = line?;
        try_line(&rt, line.as_str())?;
    }
    Ok(())
}
