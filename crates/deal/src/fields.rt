// Terms and items from numbers in the order in which they are sent, and back.
ghost use Rattle.std.specs.Prelude.{◌≡◌, ◌≤◌, length};
ghost use Rattle.deal.specs.Fields.{collateral_fields, collateral_in, collateral_width, guarantee_fields, guarantee_in, guarantee_sent, guarantee_under, guarantee_width, party_in, sent_guarantee_width, sent_swap_width, swap_sent, terms_fields, terms_in, terms_under, terms_width};

use crate::asset::Asset;
use crate::collateral::Collateral;
use crate::guarantee::Guarantee;
use crate::instrument::GUARANTEE;
use crate::party::Party;
use crate::terms::Terms;

// How many numbers there are of each.
pub const TERMS_WIDTH: usize = 12;

pub const COLLATERAL_WIDTH: usize = 11;

// As a record holds it, a guarantee or a swap.
pub const GUARANTEE_WIDTH: usize = 11;

// As each of them is sent.
pub const SENT_GUARANTEE_WIDTH: usize = 10;

pub const SENT_SWAP_WIDTH: usize = 11;

// A party's, which stand in the same places of a deal, of a guarantee and of a netting set.
pub fn party_in(fields: &[u64]) -> Party
    requires { 4 ≤ length fields.now }
    ensures { result ≡ party_in fields.now }
{
    Party {
        class: fields[1],
        step: fields[2],
        sovereign_step: fields[3],
    }
}

// A deal's own fields under an edition.
pub fn terms_under(edition: u64, fields: &[u64]) -> Terms
    requires { 11 ≤ length fields.now }
    ensures { result ≡ terms_under edition fields.now }
{
    Terms {
        amount: fields[0],
        counterparty: party_in(fields),
        currency: fields[4],
        kind: fields[5],
        interval: fields[6],
        residual: fields[7],
        lent: Asset {
            goods: fields[8],
            step: fields[9],
            life: fields[10],
        },
        edition,
    }
}

pub fn terms_in(fields: &[u64]) -> Terms
    requires { terms_width ≤ length fields.now }
    ensures { result ≡ terms_in fields.now }
{
    terms_under(fields[11], fields)
}

pub fn collateral_in(fields: &[u64]) -> Collateral
    requires { collateral_width ≤ length fields.now }
    ensures { result ≡ collateral_in fields.now }
{
    Collateral {
        amount: fields[0],
        asset: Asset {
            goods: fields[1],
            step: fields[2],
            life: fields[3],
        },
        currency: fields[4],
        residual: fields[5],
        original: fields[6],
        lawful: fields[7],
        unrelated: fields[8],
        not_in_rating: fields[9],
        listed: fields[10],
    }
}

// What guarantees and swaps have alike.
fn guarantee_under(instrument: u64, fields: &[u64]) -> Guarantee
    requires { sent_guarantee_width ≤ length fields.now }
    ensures { result ≡ guarantee_under instrument fields.now }
{
    Guarantee {
        amount: fields[0],
        provider: party_in(fields),
        currency: fields[4],
        residual: fields[5],
        original: fields[6],
        lawful: fields[7],
        direct: fields[8],
        not_in_rating: fields[9],
        instrument,
    }
}

// Sent as a guarantee.
pub fn guarantee_sent(fields: &[u64]) -> Guarantee
    requires { sent_guarantee_width ≤ length fields.now }
    ensures { result ≡ guarantee_sent fields.now }
{
    guarantee_under(GUARANTEE, fields)
}

// Sent as a swap.
pub fn swap_sent(fields: &[u64]) -> Guarantee
    requires { sent_swap_width ≤ length fields.now }
    ensures { result ≡ swap_sent fields.now }
{
    let sent = guarantee_sent(fields);
    sent.as_swap(fields[10])
}

// Held in a record.
pub fn guarantee_in(fields: &[u64]) -> Guarantee
    requires { guarantee_width ≤ length fields.now }
    ensures { result ≡ guarantee_in fields.now }
{
    guarantee_under(fields[10], fields)
}

pub fn terms_fields(terms: Terms) -> [u64; TERMS_WIDTH]
    ensures { result ≡ terms_fields terms }
{
    let counterparty = terms.counterparty;
    let lent = terms.lent;
    [
        terms.amount,
        counterparty.class,
        counterparty.step,
        counterparty.sovereign_step,
        terms.currency,
        terms.kind,
        terms.interval,
        terms.residual,
        lent.goods,
        lent.step,
        lent.life,
        terms.edition,
    ]
}

pub fn collateral_fields(item: Collateral) -> [u64; COLLATERAL_WIDTH]
    ensures { result ≡ collateral_fields item }
{
    let asset = item.asset;
    [
        item.amount,
        asset.goods,
        asset.step,
        asset.life,
        item.currency,
        item.residual,
        item.original,
        item.lawful,
        item.unrelated,
        item.not_in_rating,
        item.listed,
    ]
}

pub fn guarantee_fields(item: Guarantee) -> [u64; GUARANTEE_WIDTH]
    ensures { result ≡ guarantee_fields item }
{
    let provider = item.provider;
    [
        item.amount,
        provider.class,
        provider.step,
        provider.sovereign_step,
        item.currency,
        item.residual,
        item.original,
        item.lawful,
        item.direct,
        item.not_in_rating,
        item.instrument,
    ]
}
