//! The configuration that a report's heading tells.

ghost use Rattle.std.specs.Prelude.{◌≡◌, Ok, IfOk};
ghost use Rattle.lard_audit_run.specs.Audited.{audit_configured};
ghost use Rattle.lard_report.specs.Preface.{heading_config};
ghost use Rattle.lard_base.specs.Config.{config_check};

use lard_base::{Config, ConfigFault, Key};
use lard_report::Heading;

/// The configuration with the numbers of a heading, where it can be used; else the first fault: a number out of its range, in the
/// heading's order, then low above high, then that no connection would be admitted.
pub fn config_with(heading: &Heading) -> Result<Config, ConfigFault>
    ensures config { result ≡ audit_configured (heading_config heading.now) (config_check (heading_config heading.now)) }
    ensures usable { IfOk result (λ config. config_check config ≡ Ok tt) }
{
    let mut config = Config::standard();
    config.set(Key::Nodes, heading.nodes)?;
    config.set(Key::Low, heading.low)?;
    config.set(Key::High, heading.high)?;
    config.set(Key::Age, heading.age)?;
    config.set(Key::Idle, heading.idle)?;
    config.set(Key::Over, heading.over)?;
    config.set(Key::Miss, heading.miss)?;
    config.set(Key::Cache, heading.cache)?;
    config.set(Key::Stream, heading.stream)?;
    config.check()?;
    Ok(config)
}
