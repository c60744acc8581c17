//! What one wants to know first of an assembly: its identity, its module, the runtime that it was made for, its headers, how
//! many types it has, the assemblies that it refers to, and the attributes of its own whose arguments are strings.
//!
//! `specs/InfoLines.antt` defines the lines as a function of the CLI header and the model. They go to a [`cli_lines::Printer`].
//!
//! ```text
//! assembly Mono.Cecil, Version=0.11.0.0, Culture=neutral, PublicKeyToken=0738eb9f132ed756
//! module Mono.Cecil.dll {cbbb9aa0-a4b8-4d76-a2cb-a2b9b4e9c1b5}
//! version v4.0.30319
//! format PE32 machine 0000014c i386 debug 28
//! flags 00000009 ILONLY STRONGNAMESIGNED
//! ```
//!
//! The managed resources of a file (ECMA-335 II.22.24): where each is, one per line, and the content of one.
//!
//! `specs/Resources.antt` defines the lines as a function of the model and of where each resource is, which
//! `specs/Resources.antt` of crate `file_ranges` defines. They go to a [`cli_lines::Printer`].
//!
//! ```text
//! resource 2364 7 public notes.txt
//! resource in parts.netmodule private Parts.resources
//! {"resource":{"token":"28000001","offset":2364,"size":7,"visibility":"public","name":"notes.txt"}}
//! ```
#![tactic(auto)]

mod attributes;
mod identities;
mod info;
mod resources;

pub use info::{open_facts, print_info};
pub use resources::{print_resources, resource_named};
