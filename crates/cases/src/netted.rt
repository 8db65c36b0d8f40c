// A netting set: six numbers, and seven for each position.
use crate::show::{self, number, text};

// The reply, with E* and the weighted amount beside a refusal too.
pub fn net(rt: &impl Print, set: &[u64]) {
    let mut exposure = show::MARK;
    let mut rwa = show::MARK;
    let refusal = hadlephoga::hadlephoga_net_set(set, &mut exposure, &mut rwa);
    number(rt, "=", refusal);
    number(rt, "", exposure);
    number(rt, "", rwa);
    number(rt, " of", set.len() as u64);
    text(rt, " numbers\n");
}
