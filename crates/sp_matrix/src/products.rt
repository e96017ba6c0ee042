// Sums of products with a limit.
ghost use Rattle.std.specs.Prelude.{◌≡◌, ◌^◌, ◌<◌, ◌↔◌, IfSome, IsNone};
ghost use Rattle.sp_defs.specs.Laurent.{slope_at_one};
ghost use Rattle.sp_module_defs.specs.Agreement.{slope_size};

// The sum of the products. None where their absolute values sum up to more than the limit.
pub(crate) fn sum_of(products: &[(i128, i128)], limit: u128) -> Option<i128>
    requires { limit < 2 ^ 127 }
    ensures some { IfSome result (λ sum. sum ≡ slope_at_one products.now) }
    ensures none { IsNone result ↔ (limit < slope_size products.now) }
{
    let mut sum = 0;
    let mut room = limit;
    for (factor, value) in products {
        let weight = factor.unsigned_abs().checked_mul(value.unsigned_abs());
        match weight {
            Some(weight) if weight <= room => room -= weight,
            _ => return None,
        }
        sum += *factor * *value;
    }
    Some(sum)
}
