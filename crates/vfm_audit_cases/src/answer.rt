//! What an audit says of bytes, in words.

ghost use Rattle.vfm_types.specs.Valid.{IsValid};
ghost use Rattle.vfm_report.specs.Parts.{parts_of};
ghost use Rattle.vfm_report.specs.Printed.{IsPrinted};
ghost use Rattle.vfm_report.specs.Readers.{made_from};

use anyhow::{Result, bail};
use std::alloc::{AllocError, Global};
use vfm_audit::{AuditFault, ReportFault, Section, audit_journals, audit_report};
use vfm_report::{Report, TextFault, read_report};
use vfm_samples::{MACHINES, machine};
use vfm_types::{Desc, Rule};

// the words of a broken rule
fn broken(alloc: Global, place: u64, rule: Rule) -> Result<String, AllocError> {
    let rule = rule.number();
    format!(in alloc; "broken {place} {rule}")
}

// what the audit of a report says
fn audited(alloc: Global, desc: &Desc, report: &Report) -> Result<String>
    requires valid { IsValid desc.now }
    requires printed { IsPrinted (made_from desc.now (parts_of report.now)) }
{
    match audit_report(alloc, desc, report) {
        Ok(entries) => Ok(format!(in alloc; "legal {entries}")?),
        Err(ReportFault::Broken { place, rule }) => Ok(broken(alloc, place, rule)?),
        Err(ReportFault::StateDiffers(Section::Joint)) => {
            Ok(String::from_str(alloc, "state-differs joint")?)
        }
        Err(ReportFault::StateDiffers(Section::Last)) => {
            Ok(String::from_str(alloc, "state-differs final")?)
        }
        Err(ReportFault::NoMemory) => bail!("no memory"),
    }
}

// what the audit of a report's journals alone says, where they break a rule
fn journals_audited(alloc: Global, desc: &Desc, report: &Report) -> Result<Option<String>>
    requires valid { IsValid desc.now }
    requires printed { IsPrinted (made_from desc.now (parts_of report.now)) }
{
    match audit_journals(alloc, desc, report) {
        Ok(_) => Ok(None),
        Err(AuditFault::Broken { place, rule }) => Ok(Some(broken(alloc, place, rule)?)),
        Err(AuditFault::NoMemory) => bail!("no memory"),
    }
}

// what is said of these bytes as the report of a machine
fn judged(alloc: Global, desc: &Desc, bytes: &[u8]) -> Result<String>
    requires { IsValid desc.now }
{
    match read_report(alloc, desc, bytes) {
        Ok(report) => {
            let said = audited(alloc, desc, &report)?;
            let alone = journals_audited(alloc, desc, &report)?;
            match alone {
                Some(alone) if alone.as_str() != said.as_str() => {
                    Ok(format!(in alloc; "{said}, and its journals alone {alone}")?)
                }
                None if said.as_str().starts_with("broken") => {
                    Ok(format!(in alloc; "{said}, and its journals alone are not")?)
                }
                _ => Ok(said),
            }
        }
        Err(TextFault::BadLine { line }) => Ok(format!(in alloc; "bad-report {line}")?),
        Err(TextFault::NoMemory) => bail!("no memory"),
    }
}

/// What is said of these bytes as the report of machine `i`.
pub fn answer(alloc: Global, i: u32, bytes: &[u8]) -> Result<String> {
    if i >= MACHINES {
        bail!("no machine {i}");
    }
    let desc = machine(alloc, i)?;
    judged(alloc, &desc, bytes)
}
