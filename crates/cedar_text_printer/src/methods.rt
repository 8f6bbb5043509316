//! Which functions of Cedar's extensions are called as methods.
ghost use Rattle.std.specs.Prelude.{◌≡◌};
ghost use Rattle.cedar_text_printer.specs.Methods as texts;

/// Whether the function is called as a method.
#[tactic(auto, unfolding(crate::specs::Methods::is_method))]
pub(crate) fn is_method(name: &str) -> bool
    ensures { result ≡ texts.is_method name.now }
{
    is_decimal_method(name)
        || is_address_method(name)
        || is_time_method(name)
        || is_duration_method(name)
}

fn is_decimal_method(name: &str) -> bool
    ensures { result ≡ texts.is_decimal_method name.now }
{
    match name {
        "lessThan" => true,
        "lessThanOrEqual" => true,
        "greaterThan" => true,
        "greaterThanOrEqual" => true,
        _ => false,
    }
}

fn is_address_method(name: &str) -> bool
    ensures { result ≡ texts.is_address_method name.now }
{
    match name {
        "isIpv4" => true,
        "isIpv6" => true,
        "isLoopback" => true,
        "isMulticast" => true,
        "isInRange" => true,
        _ => false,
    }
}

fn is_time_method(name: &str) -> bool
    ensures { result ≡ texts.is_time_method name.now }
{
    match name {
        "offset" => true,
        "durationSince" => true,
        "toDate" => true,
        "toTime" => true,
        _ => false,
    }
}

fn is_duration_method(name: &str) -> bool
    ensures { result ≡ texts.is_duration_method name.now }
{
    match name {
        "toMilliseconds" => true,
        "toSeconds" => true,
        "toMinutes" => true,
        "toHours" => true,
        "toDays" => true,
        _ => false,
    }
}
