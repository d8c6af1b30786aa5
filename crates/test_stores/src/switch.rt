//! A switch of the same maker, whose file lets the bulb's address in before any Thing has its URL.
use mud_base::Mac;

/// The switch.
pub(crate) const SWITCH: Mac = Mac([2, 0, 0, 0, 0, 2]);

/// Its MUD URL.
pub(crate) const SWITCH_URL: &[u8] = b"https://lighting.example.com/switch1";

/// Its usage file: Things of the same maker, over TCP connections that they began.
pub(crate) const SWITCH_FILE: &[u8] =
    br#"{"ietf-mud:mud":{"mud-version":1,"mud-url":"https://lighting.example.com/switch1","last-update":"2019-01-28T11:20:51+01:00","cache-validity":48,"is-supported":true,"systeminfo":"The BMS Example Light Bulb","from-device-policy":{"access-lists":{"access-list":[{"name":"v4fr"}]}},"to-device-policy":{"access-lists":{"access-list":[{"name":"v4to"}]}}},"ietf-access-control-list:acls":{"acl":[{"name":"v4to","type":"ipv4-acl-type","aces":{"ace":[]}},{"name":"v4fr","type":"ipv4-acl-type","aces":{"ace":[{"name":"answers","matches":{"ietf-mud:mud":{"same-manufacturer":[null]},"tcp":{"ietf-mud:direction-initiated":"to-device"}},"actions":{"forwarding":"accept"}}]}}]}}"#;

/// Its SHA-256 in hex digits.
pub(crate) const SWITCH_DIGEST: &[u8] =
    b"0d86bf340c4b3b8f551e1af2146bd662758fa02697297bc8d114dadfd9c51be7";
