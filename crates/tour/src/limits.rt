// Numbers of the program's own, held to the machine's limits.
use anyhow::Context;
use network::Number;

pub(crate) fn within<const LIMIT: u16>(number: u64) -> anyhow::Result<Number<LIMIT>> {
    Number::new(number).context("no such number")
}
