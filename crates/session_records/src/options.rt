//! The options of policies' records, and those of directories under them.

ghost use Rattle.std.specs.Prelude.{◌≡◌};
ghost use Rattle.session_records.specs.NewPolicies as new;
ghost use Rattle.session_records.specs.PolicyOptions as spec;

use policy_ctx::{Pad, Policy, Unit};
use protector_meta::{Options, PolicyFile};
use reply_text::Outcome;
use script_lang::{Options as SaidOptions, Settings};

// The options of directories for which a record gives none.
pub(crate) fn usual_options() -> Options
    ensures { result ≡ new.usual_options }
{
    Options {
        pad: Pad::P32,
        unit: Unit::Block,
    }
}

// The options that are given, and otherwise the usual ones.
pub(crate) fn options_or_default(options: Option<SaidOptions>) -> Options
    ensures { result ≡ new.options_or_default options }
{
    match options {
        Some(said) => Options {
            pad: said.pad,
            unit: said.unit,
        },
        None => usual_options(),
    }
}

/// Returns a policy of version 1 with the usual options; `Current` if it has options already.
pub fn with_options(mut policy: PolicyFile) -> Result<PolicyFile, Outcome>
    ensures { result ≡ spec.with_options policy policy.options }
{
    if policy.options.is_some() {
        return Err(Outcome::Current);
    }
    policy.options = Some(usual_options());
    Ok(policy)
}

/// Returns the policy of a directory that is encrypted under a record's policy: the padding and unit that
/// are given, and otherwise the record's. Each node has keys of its own.
pub fn node_policy(policy: &PolicyFile, settings: Option<Settings>) -> Policy
    ensures { result ≡ spec.node_policy policy.now settings }
{
    let options = record_options(policy.options);
    Policy {
        pad: pad_for(options, settings),
        unit: unit_for(options, settings),
        by_mode: false,
        id: policy.id,
    }
}

// The options of a record. One of version 1 has the usual ones.
fn record_options(options: Option<Options>) -> Options
    ensures { result ≡ spec.record_options options }
{
    match options {
        Some(options) => options,
        None => usual_options(),
    }
}

// The padding that is given, and otherwise the record's.
fn pad_for(options: Options, settings: Option<Settings>) -> Pad
    ensures { result ≡ spec.pad_for options settings }
{
    match settings {
        Some(settings) => settings.pad,
        None => options.pad,
    }
}

// The unit that is given, and otherwise the record's.
fn unit_for(options: Options, settings: Option<Settings>) -> Unit
    ensures { result ≡ spec.unit_for options settings }
{
    match settings {
        Some(settings) => unit_or(options, settings.unit),
        None => options.unit,
    }
}

fn unit_or(options: Options, unit: Option<Unit>) -> Unit
    ensures { result ≡ spec.unit_or options unit }
{
    match unit {
        Some(unit) => unit,
        None => options.unit,
    }
}
