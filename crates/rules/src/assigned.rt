// Numbers that the standards assign, as in specs/Assigned.antt.

// IPv6 next headers and IPv4 protocols (IANA).
pub const HOP_BY_HOP: u8 = 0;

pub const IPV4_PROTOCOL: u8 = 4;

pub const UDP_PROTOCOL: u8 = 17;

pub const IPV6_PROTOCOL: u8 = 41;

pub const ROUTING_HEADER: u8 = 43;

pub const FRAGMENT_HEADER: u8 = 44;

pub const ICMPV6_PROTOCOL: u8 = 58;

pub const DESTINATION_OPTIONS: u8 = 60;

pub const ETHERNET_PROTOCOL: u8 = 143;

// Routing type of the SRH (RFC 8754).
pub const SEGMENT_ROUTING: u8 = 4;

// Behaviours (RFC 8986, RFC 9433).
pub const END: u8 = 1;

pub const END_M_GTP6_D: u8 = 69;

pub const END_M_GTP6_D_DI: u8 = 70;

pub const END_M_GTP6_E: u8 = 71;

pub const END_M_GTP4_E: u8 = 72;

// PDU session types (TS 24.501).
pub const IPV4_SESSION: u8 = 1;

pub const IPV6_SESSION: u8 = 2;

pub const IPV4V6_SESSION: u8 = 3;

pub const ETHERNET_SESSION: u8 = 5;

// PDU types of the container (TS 38.415), and the directions of entries and rules.
pub const DOWNLINK: u8 = 0;

pub const UPLINK: u8 = 1;

// UDP port, message types, type of the PDU Session container and of the Recovery element (TS 29.281).
pub const GTPU_PORT: u16 = 2152;

pub const ECHO_REQUEST: u8 = 1;

pub const ECHO_RESPONSE: u8 = 2;

pub const G_PDU: u8 = 255;

pub const PDU_SESSION_CONTAINER: u8 = 0x85;

pub const RECOVERY: u8 = 14;

// ICMPv6 types (RFC 4443, RFC 4861): two error messages, and Redirect.
pub const TIME_EXCEEDED: u8 = 3;

pub const PARAMETER_PROBLEM: u8 = 4;

pub const REDIRECT: u8 = 137;
