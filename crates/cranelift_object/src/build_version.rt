//! The system for which a Mach-O file is built: Apple's `mach-o/loader.h`, `struct build_version_command`.

ghost use Rattle.std.specs.Prelude.{◌≡◌};
ghost use Rattle.cranelift_object.specs.BuildVersion.{device_platform, platform_of, version_number, macho_build_version, file_version};

use ir_core::{BinaryFormat, Environment, System, Triple, Version};
use object_core::MachOBuildVersion;

/// The build version of a Mach-O file for a target: the platform of its system, and its version in nibbles xxxx.yy.zz, 0
/// where none is known. No SDK is known. None where the system has no platform.
pub fn macho_build_version(triple: &Triple) -> Option<MachOBuildVersion>
    ensures { result ≡ macho_build_version triple.now }
{
    let platform = platform_of(triple.system, triple.environment)?;
    Some(MachOBuildVersion {
        platform,
        minos: version_number(triple.version),
        sdk: 0,
    })
}

/// The build version of a target's file: other formats than Mach-O have none.
pub(crate) fn file_version(triple: &Triple) -> Option<MachOBuildVersion>
    ensures { result ≡ file_version (triple.now).binary_format triple.now }
{
    match triple.binary_format {
        BinaryFormat::Macho => macho_build_version(triple),
        _ => None,
    }
}

// The platform of a system: PLATFORM_MACOS 1 and on.
fn platform_of(system: System, environment: Environment) -> Option<u32>
    ensures { result ≡ platform_of system environment }
{
    match system {
        System::Unknown | System::Linux => None,
        System::Darwin | System::MacOSX => Some(1),
        System::IOS => Some(device_platform(2, 7, environment)),
        System::TvOS => Some(device_platform(3, 8, environment)),
        System::WatchOS => Some(device_platform(4, 9, environment)),
        System::VisionOS | System::XROS => Some(device_platform(11, 12, environment)),
    }
}

// The platform of a device or of its simulator, or PLATFORM_MACCATALYST 6.
fn device_platform(device: u32, simulator: u32, environment: Environment) -> u32
    ensures { result ≡ device_platform device simulator environment }
{
    match environment {
        Environment::Unknown => device,
        Environment::Macabi => 6,
        Environment::Sim => simulator,
    }
}

// A version in nibbles xxxx.yy.zz.
fn version_number(version: Option<Version>) -> u32
    ensures { result ≡ version_number version }
{
    match version {
        Some(version) => {
            u32::from(version.major) * 65_536
                + (u32::from(version.minor) * 256 + u32::from(version.patch))
        }
        None => 0,
    }
}
