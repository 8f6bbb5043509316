//! The standard functions.
ghost use Rattle.std.specs.Prelude.{◌≡◌};
ghost use Rattle.cedar_standard_functions.specs.Standard.{among};

use crate::kind::Kind;
use cedar_errors::evaluator::err::EvaluationError;
use cedar_names::{CallStyle, Type};
use cedar_values::Value;
use std::alloc::{AllocError, Global};

/// A function of a standard extension.
#[derive(Clone, Copy, Debug, PartialEq, Eq)]
pub enum StandardFunction {
    /// `decimal`: the decimal that a text writes.
    Decimal,
    /// `lessThan`, of decimals.
    LessThan,
    /// `lessThanOrEqual`, of decimals.
    LessThanOrEqual,
    /// `greaterThan`, of decimals.
    GreaterThan,
    /// `greaterThanOrEqual`, of decimals.
    GreaterThanOrEqual,
    /// `ip`: the range of IP addresses that a text writes.
    Ip,
    /// `isIpv4`, of a range.
    IsIpv4,
    /// `isIpv6`, of a range.
    IsIpv6,
    /// `isLoopback`, of a range.
    IsLoopback,
    /// `isMulticast`, of a range.
    IsMulticast,
    /// `isInRange`, of two ranges.
    IsInRange,
    /// `datetime`: the date and time that a text writes.
    Datetime,
    /// `duration`: the duration that a text writes.
    Duration,
    /// `offset`: a datetime so much later.
    Offset,
    /// `durationSince`: from the second datetime to the first.
    DurationSince,
    /// `toDate`: the last midnight of a datetime.
    ToDate,
    /// `toTime`: the time since then.
    ToTime,
    /// `toMilliseconds`, of a duration.
    ToMilliseconds,
    /// `toSeconds`, of a duration.
    ToSeconds,
    /// `toMinutes`, of a duration.
    ToMinutes,
    /// `toHours`, of a duration.
    ToHours,
    /// `toDays`, of a duration.
    ToDays,
}

impl StandardFunction {
    ghost use Rattle.std.specs.Prelude.{length, map, None, IfOk, IfErr};
    ghost use Rattle.cedar_names.specs.Leaves.{type_view};
    ghost use Rattle.cedar_errors.specs.Answers.{Answers};
    ghost use Rattle.cedar_errors.specs.Errors.{error_loc};
    ghost use Rattle.cedar_extension_values.specs.Answered.{abstracts};
    ghost use Rattle.cedar_standard_functions.specs.Kinds.{kind_type};
    ghost use Rattle.cedar_standard_functions.specs.Standard.{all_standard, name_of, style_of, takes, returns, answer_of};
    ghost use Rattle.cedar_standard_functions.specs.Standard.{standard_named};

    /// All of them: those of `decimal`, of `ipaddr` and of `datetime`.
    pub const ALL: [StandardFunction; 22] = [
        StandardFunction::Decimal,
        StandardFunction::LessThan,
        StandardFunction::LessThanOrEqual,
        StandardFunction::GreaterThan,
        StandardFunction::GreaterThanOrEqual,
        StandardFunction::Ip,
        StandardFunction::IsIpv4,
        StandardFunction::IsIpv6,
        StandardFunction::IsLoopback,
        StandardFunction::IsMulticast,
        StandardFunction::IsInRange,
        StandardFunction::Datetime,
        StandardFunction::Duration,
        StandardFunction::Offset,
        StandardFunction::DurationSince,
        StandardFunction::ToDate,
        StandardFunction::ToTime,
        StandardFunction::ToMilliseconds,
        StandardFunction::ToSeconds,
        StandardFunction::ToMinutes,
        StandardFunction::ToHours,
        StandardFunction::ToDays,
    ];

    /// The standard function of this name, if there is one.
    pub fn named(name: &str) -> Option<StandardFunction>
        ensures { result ≡ standard_named name.now }
    {
        among(&StandardFunction::ALL, name)
    }

    /// Its name.
    pub fn name(self) -> &'static str
        ensures { result.now ≡ name_of self }
    {
        match self {
            StandardFunction::Decimal => "decimal",
            StandardFunction::LessThan => "lessThan",
            StandardFunction::LessThanOrEqual => "lessThanOrEqual",
            StandardFunction::GreaterThan => "greaterThan",
            StandardFunction::GreaterThanOrEqual => "greaterThanOrEqual",
            StandardFunction::Ip => "ip",
            StandardFunction::IsIpv4 => "isIpv4",
            StandardFunction::IsIpv6 => "isIpv6",
            StandardFunction::IsLoopback => "isLoopback",
            StandardFunction::IsMulticast => "isMulticast",
            StandardFunction::IsInRange => "isInRange",
            StandardFunction::Datetime => "datetime",
            StandardFunction::Duration => "duration",
            StandardFunction::Offset => "offset",
            StandardFunction::DurationSince => "durationSince",
            StandardFunction::ToDate => "toDate",
            StandardFunction::ToTime => "toTime",
            StandardFunction::ToMilliseconds => "toMilliseconds",
            StandardFunction::ToSeconds => "toSeconds",
            StandardFunction::ToMinutes => "toMinutes",
            StandardFunction::ToHours => "toHours",
            StandardFunction::ToDays => "toDays",
        }
    }

    /// How it is called: constructors as functions, and all others as methods.
    pub fn style(self) -> CallStyle
        ensures { result ≡ style_of self }
    {
        match self {
            StandardFunction::Decimal => CallStyle::FunctionStyle,
            StandardFunction::LessThan => CallStyle::MethodStyle,
            StandardFunction::LessThanOrEqual => CallStyle::MethodStyle,
            StandardFunction::GreaterThan => CallStyle::MethodStyle,
            StandardFunction::GreaterThanOrEqual => CallStyle::MethodStyle,
            StandardFunction::Ip => CallStyle::FunctionStyle,
            StandardFunction::IsIpv4 => CallStyle::MethodStyle,
            StandardFunction::IsIpv6 => CallStyle::MethodStyle,
            StandardFunction::IsLoopback => CallStyle::MethodStyle,
            StandardFunction::IsMulticast => CallStyle::MethodStyle,
            StandardFunction::IsInRange => CallStyle::MethodStyle,
            StandardFunction::Datetime => CallStyle::FunctionStyle,
            StandardFunction::Duration => CallStyle::FunctionStyle,
            StandardFunction::Offset => CallStyle::MethodStyle,
            StandardFunction::DurationSince => CallStyle::MethodStyle,
            StandardFunction::ToDate => CallStyle::MethodStyle,
            StandardFunction::ToTime => CallStyle::MethodStyle,
            StandardFunction::ToMilliseconds => CallStyle::MethodStyle,
            StandardFunction::ToSeconds => CallStyle::MethodStyle,
            StandardFunction::ToMinutes => CallStyle::MethodStyle,
            StandardFunction::ToHours => CallStyle::MethodStyle,
            StandardFunction::ToDays => CallStyle::MethodStyle,
        }
    }

    /// How many arguments it takes. The receiver of a method is one of them.
    pub fn arity(self) -> usize
        ensures { result ≡ length (takes self) }
    {
        self.argument_kinds().len()
    }

    /// The types of its arguments, in order. Refuses only if out of memory.
    pub fn arg_types(self, alloc: Global) -> Result<Vec<Type>, AllocError>
        ensures { IfOk result (λ ts. map type_view ts.items ≡ takes self) }
    {
        let mut types: Vec<Type> = Vec::new(alloc);
        let mut rest = self.argument_kinds();
        'kinds: while let Some((kind, others)) = rest.split_first() {
            let ty = kind.value_type(alloc)?;
            types.push(ty)?;
            rest = others;
        }
        Ok(types)
    }

    /// The type of what it answers. Refuses only if out of memory.
    pub fn return_type(self, alloc: Global) -> Result<Type, AllocError>
        ensures { IfOk result (λ t. type_view t ≡ returns self) }
    {
        self.return_kind().value_type(alloc)
    }

    /// What it answers to these arguments, of which there are as many as it takes: one that is missing counts as
    /// `false`, and those beyond are not looked at. A `TypeError` that expects the argument's type where one is of
    /// another, the first one first; `FailedExtensionFunctionExecution` where a text writes no value, or what is
    /// computed is not within 64 bits; else the only error is `Memory`. Values and errors are at no place.
    pub fn call(self, alloc: Global, args: &[Value]) -> Result<Value, EvaluationError>
        ensures answers { Answers result (answer_of self (abstracts args.now)) }
        ensures value_place { IfOk result (λ v. v.loc ≡ None) }
        ensures error_place { IfErr result (λ e. error_loc e ≡ None) }
    {
        match self {
            StandardFunction::Decimal => cedar_decimal_functions::decimal(alloc, args),
            StandardFunction::LessThan => cedar_decimal_functions::less_than(alloc, args),
            StandardFunction::LessThanOrEqual => cedar_decimal_functions::less_than_or_equal(
                alloc, args,
            ),
            StandardFunction::GreaterThan => cedar_decimal_functions::greater_than(alloc, args),
            StandardFunction::GreaterThanOrEqual => cedar_decimal_functions::greater_than_or_equal(
                alloc, args,
            ),
            StandardFunction::Ip => cedar_ip_functions::ip(alloc, args),
            StandardFunction::IsIpv4 => cedar_ip_functions::is_ipv4(alloc, args),
            StandardFunction::IsIpv6 => cedar_ip_functions::is_ipv6(alloc, args),
            StandardFunction::IsLoopback => cedar_ip_functions::is_loopback(alloc, args),
            StandardFunction::IsMulticast => cedar_ip_functions::is_multicast(alloc, args),
            StandardFunction::IsInRange => cedar_ip_functions::is_in_range(alloc, args),
            StandardFunction::Datetime => cedar_datetime_functions::datetime(alloc, args),
            StandardFunction::Duration => cedar_datetime_functions::duration(alloc, args),
            StandardFunction::Offset => cedar_datetime_functions::offset(alloc, args),
            StandardFunction::DurationSince => cedar_datetime_functions::duration_since(
                alloc, args,
            ),
            StandardFunction::ToDate => cedar_datetime_functions::to_date(alloc, args),
            StandardFunction::ToTime => cedar_datetime_functions::to_time(alloc, args),
            StandardFunction::ToMilliseconds => cedar_datetime_functions::to_milliseconds(
                alloc, args,
            ),
            StandardFunction::ToSeconds => cedar_datetime_functions::to_seconds(alloc, args),
            StandardFunction::ToMinutes => cedar_datetime_functions::to_minutes(alloc, args),
            StandardFunction::ToHours => cedar_datetime_functions::to_hours(alloc, args),
            StandardFunction::ToDays => cedar_datetime_functions::to_days(alloc, args),
        }
    }

    fn argument_kinds(self) -> &'static [Kind]
        ensures { map kind_type result.now ≡ takes self }
    {
        match self {
            StandardFunction::Decimal => &[Kind::String],
            StandardFunction::LessThan => &[Kind::Decimal, Kind::Decimal],
            StandardFunction::LessThanOrEqual => &[Kind::Decimal, Kind::Decimal],
            StandardFunction::GreaterThan => &[Kind::Decimal, Kind::Decimal],
            StandardFunction::GreaterThanOrEqual => &[Kind::Decimal, Kind::Decimal],
            StandardFunction::Ip => &[Kind::String],
            StandardFunction::IsIpv4 => &[Kind::Ipaddr],
            StandardFunction::IsIpv6 => &[Kind::Ipaddr],
            StandardFunction::IsLoopback => &[Kind::Ipaddr],
            StandardFunction::IsMulticast => &[Kind::Ipaddr],
            StandardFunction::IsInRange => &[Kind::Ipaddr, Kind::Ipaddr],
            StandardFunction::Datetime => &[Kind::String],
            StandardFunction::Duration => &[Kind::String],
            StandardFunction::Offset => &[Kind::Datetime, Kind::Duration],
            StandardFunction::DurationSince => &[Kind::Datetime, Kind::Datetime],
            StandardFunction::ToDate => &[Kind::Datetime],
            StandardFunction::ToTime => &[Kind::Datetime],
            StandardFunction::ToMilliseconds => &[Kind::Duration],
            StandardFunction::ToSeconds => &[Kind::Duration],
            StandardFunction::ToMinutes => &[Kind::Duration],
            StandardFunction::ToHours => &[Kind::Duration],
            StandardFunction::ToDays => &[Kind::Duration],
        }
    }

    fn return_kind(self) -> Kind
        ensures { kind_type result ≡ returns self }
    {
        match self {
            StandardFunction::Decimal => Kind::Decimal,
            StandardFunction::LessThan => Kind::Bool,
            StandardFunction::LessThanOrEqual => Kind::Bool,
            StandardFunction::GreaterThan => Kind::Bool,
            StandardFunction::GreaterThanOrEqual => Kind::Bool,
            StandardFunction::Ip => Kind::Ipaddr,
            StandardFunction::IsIpv4 => Kind::Bool,
            StandardFunction::IsIpv6 => Kind::Bool,
            StandardFunction::IsLoopback => Kind::Bool,
            StandardFunction::IsMulticast => Kind::Bool,
            StandardFunction::IsInRange => Kind::Bool,
            StandardFunction::Datetime => Kind::Datetime,
            StandardFunction::Duration => Kind::Duration,
            StandardFunction::Offset => Kind::Datetime,
            StandardFunction::DurationSince => Kind::Duration,
            StandardFunction::ToDate => Kind::Datetime,
            StandardFunction::ToTime => Kind::Duration,
            StandardFunction::ToMilliseconds => Kind::Long,
            StandardFunction::ToSeconds => Kind::Long,
            StandardFunction::ToMinutes => Kind::Long,
            StandardFunction::ToHours => Kind::Long,
            StandardFunction::ToDays => Kind::Long,
        }
    }
}

// The first of these functions that has this name.
fn among(functions: &[StandardFunction], name: &str) -> Option<StandardFunction>
    ensures { result ≡ among name.now functions.now }
{
    let mut rest = functions;
    'functions: while let Some((function, others)) = rest.split_first() {
        if function.name() == name {
            return Some(*function);
        }
        rest = others;
    }
    None
}
