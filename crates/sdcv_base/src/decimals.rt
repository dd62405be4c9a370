//! Numbers in decimal digits.
ghost use Rattle.std.specs.Prelude.{◌≡◌, ◌↔◌, ◌≤◌, ◌++◌, IsSome, IfSome, OnOk, OnErr};
ghost use Rattle.std.specs.Fmt.{decimal};
ghost use Rattle.std.specs.Str.Parse.{digits_value};
ghost use Rattle.sdcv_base.specs.Decimals.{IsDecimal};

use std::alloc::{AllocError, Global};

/// The number that 1 to 20 decimal digits stand for, where it is at most `limit`.
pub fn read_decimal(text: &[u8], limit: u64) -> Option<u64>
    ensures some { IsSome result ↔ IsDecimal text.now limit }
    ensures value { IfSome result (λ v. v ≡ digits_value 10 text.now) }
{
    if text.is_empty() || text.len() > 20 {
        return None;
    }
    let mut value: u128 = 0;
    for byte in text {
        let Some(digit) = char::from(*byte).to_digit(10) else {
            return None;
        };
        value = value * 10 + u128::from(digit);
    }
    if value <= u128::from(limit) {
        Some(value as u64)
    } else {
        None
    }
}

/// Appends the number without leading zeros. After a refusal `out` is unchanged.
pub fn push_decimal(alloc: Global, out: &mut Vec<u8>, n: u64) -> Result<(), AllocError>
    ensures ok { OnOk result (out.new.items ≡ out.old.items ++ decimal n) }
    ensures reads { IsDecimal (decimal n) n × (digits_value 10 (decimal n) ≡ n) }
    ensures err { OnErr result (out.new.items ≡ out.old.items) }
{
    let text = n.to_string(alloc)?;
    out.extend_from_slice(text.as_bytes())
}
