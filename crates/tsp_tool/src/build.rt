//! Which build of the program this is, for `--version`. The script `build` looks for the line
//! below, so keep its form.

/// What `--version` says about the build. In the copy that the script `build` proves, this is the
/// commit and the toolchain's identity.
pub(crate) const BUILD: &str = "unknown";
