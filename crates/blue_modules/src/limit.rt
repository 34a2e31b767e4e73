// The limits of modules, their uses and their ports.

/// Modules.
pub const MAX_MODULES: usize = 64;

/// Instances of modules, in all bodies together.
pub const MAX_USES: usize = 256;

/// Ports of one module, inputs and outputs together.
pub const MAX_PORTS: usize = 64;
